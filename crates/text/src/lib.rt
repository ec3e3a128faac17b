// Bytes and texts, for every crate that reads one: the class of a byte, the end of a run, places and equal texts.
#![tactic(auto)]

ghost use Rattle.std.specs.Prelude.{◌≡◌, ◌+◌, ◌≤◌, length, drop};
ghost use Rattle.language.specs.Text.{◌≟◌, front};
ghost use Rattle.language.specs.Bytes.{class, word_byte, string_byte, comment_byte};
ghost use Rattle.text.specs.Meaning.{class_meant, in_alphabet, is_not};

// The place of a part of a text: from `start` up to, and without, `end`.
#[derive(Clone, Copy)]
pub struct Span {
    pub start: usize,
    pub end: usize,
}

// Every byte belongs to one class; each mark is a class by itself.
#[derive(Clone, Copy)]
pub enum Class {
    Letter,
    Digit,
    Space,
    Newline,
    Mark(u8),
    Foreign,
}

pub fn class_of(b: u8) -> Class
    ensures { class_meant result ≡ class b }
{
    match b {
        b'a'..=b'z' | b'A'..=b'Z' => Class::Letter,
        b'0'..=b'9' => Class::Digit,
        b' ' => Class::Space,
        b'\n' => Class::Newline,
        b'_'
        | b','
        | b';'
        | b':'
        | b'.'
        | b'?'
        | b'!'
        | b'-'
        | b'='
        | b'/'
        | b'>'
        | b'{'
        | b'}'
        | b'['
        | b']'
        | b'('
        | b')'
        | b'*'
        | b'"' => Class::Mark(b),
        _ => Class::Foreign,
    }
}

// The alphabets of identifiers after their first letter, of strings and of comments.
#[derive(Clone, Copy)]
pub enum Alphabet {
    Word,
    Text,
    Comment,
}

// The alphabets are written out byte by byte, and not by classes: each is a few tests on a number, which is what a long text costs.
fn in_word(b: u8) -> bool
    ensures { result ≡ word_byte b }
{
    matches!(b, b'a'..=b'z' | b'A'..=b'Z' | b'0'..=b'9' | b'_')
}

fn in_string(b: u8) -> bool
    ensures { result ≡ string_byte b }
{
    matches!(b, b'a'..=b'z' | b'A'..=b'Z' | b'0'..=b'9' | b' ' | b'_' | b',' | b';' | b'.' | b'?' | b'!' | b'-')
}

fn in_comment(b: u8) -> bool
    ensures { result ≡ comment_byte b }
{
    matches!(b, b'a'..=b'z' | b'A'..=b'Z' | b'0'..=b'9' | b' ' | b';' | b':' | b'.' | b'?' | b'-' | b'!')
}

fn in_alphabet(a: Alphabet, b: u8) -> bool
    ensures { result ≡ in_alphabet a b }
{
    match a {
        Alphabet::Word => in_word(b),
        Alphabet::Text => in_string(b),
        Alphabet::Comment => in_comment(b),
    }
}

// The end of the run of an alphabet's bytes that starts at `at`.
pub fn run_end(text: &[u8], at: usize, a: Alphabet) -> usize
    requires { at ≤ length text.now }
    ensures ends { result ≡ at + length (front (in_alphabet a) (drop at text.now)) }
    ensures within { (at ≤ result) × (result ≤ length text.now) }
{
    match text[at..].iter().position(|b| !in_alphabet(a, *b)) {
        Some(i) => at + i,
        None => text.len(),
    }
}

// The place of the first byte from `at` on that equals `stop`, or the length where there is none.
pub fn until(text: &[u8], at: usize, stop: u8) -> usize
    requires { at ≤ length text.now }
    ensures ends { result ≡ at + length (front (is_not stop) (drop at text.now)) }
    ensures within { (at ≤ result) × (result ≤ length text.now) }
{
    match text[at..].iter().position(|b| *b == stop) {
        Some(i) => at + i,
        None => text.len(),
    }
}

// Two texts are the same.
pub fn same_bytes(a: &[u8], b: &[u8]) -> bool
    ensures { result ≡ (a.now ≟ b.now) }
{
    a == b
}
