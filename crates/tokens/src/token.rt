// The tokenizer: one token at a place of the text. The longest token is taken.
ghost use Rattle.std.specs.Prelude.{◌≡◌, ◌+◌, ◌≤◌, ◌<◌, length, drop, get_or};
ghost use Rattle.language.specs.Bytes.{class, letter, mark};
ghost use Rattle.language.specs.Tokens.{tokens, lex, lead, pair};
ghost use Rattle.tokens.specs.Tokens.{tokens_meant, Placed};

use text::{Alphabet, Class, Span};

// A token, and where it stands. A string stands between its quotes.
#[derive(Clone, Copy)]
pub enum Token {
    // the line ends, perhaps after a comment
    End,
    Sign(Span),
    Name(Span),
    Quoted(Span),
    Wrong,
}

// A name has this many bytes at most.
const LONGEST_NAME: usize = 255;

// A token that starts with a letter: the whole run of letters, digits and underscores.
fn word_at(text: &[u8], at: usize) -> (Token, usize)
    requires at_in_bounds { at < length text.now }
    requires at_value { class (get_or text.now at 0) ≡ letter }
    ensures meant { lex (drop at text.now) ≡ tokens_meant text.now result.0 result.1 }
    ensures placed { Placed text.now at result.0 result.1 }
    ensures within { result.1 ≤ length text.now }
{
    let end = text::run_end(text, at + 1, Alphabet::Word);
    let word = Span { start: at, end };
    if keywords::is_keyword(&text[at..end]) {
        return (Token::Sign(word), end);
    }
    if end - at <= LONGEST_NAME {
        (Token::Name(word), end)
    } else {
        (Token::Wrong, end)
    }
}

// A string: its quote stands at `at`.
fn quoted_at(text: &[u8], at: usize) -> (Token, usize)
    requires at_in_bounds { at < length text.now }
    requires at_value { class (get_or text.now at 0) ≡ mark 34 }
    ensures meant { lex (drop at text.now) ≡ tokens_meant text.now result.0 result.1 }
    ensures placed { Placed text.now at result.0 result.1 }
    ensures within { result.1 ≤ length text.now }
{
    let start = at + 1;
    let end = text::run_end(text, start, Alphabet::Text);
    if end == text.len() {
        return (Token::Wrong, end);
    }
    if text[end] != b'"' {
        return (Token::Wrong, end);
    }
    (Token::Quoted(Span { start, end }), end + 1)
}

// A comment: its slashes stand at `at` and after it.
fn comment_at(text: &[u8], at: usize) -> (Token, usize)
    requires at_in_bounds { at + 1 < length text.now }
    requires at_value { class (get_or text.now at 0) ≡ mark 47 }
    requires at_value_2 { get_or text.now (at + 1) 0 ≡ 47 }
    ensures meant { lex (drop at text.now) ≡ tokens_meant text.now result.0 result.1 }
    ensures placed { Placed text.now at result.0 result.1 }
    ensures within { result.1 ≤ length text.now }
{
    let end = text::run_end(text, at + 2, Alphabet::Comment);
    if end == text.len() {
        return (Token::End, end);
    }
    if text[end] == b'\n' {
        (Token::End, end)
    } else {
        (Token::Wrong, end)
    }
}

// A token that starts with the mark m.
fn mark_at(text: &[u8], at: usize, m: u8) -> (Token, usize)
    requires at_in_bounds { at < length text.now }
    requires at_value { class (get_or text.now at 0) ≡ mark m }
    ensures meant { lex (drop at text.now) ≡ tokens_meant text.now result.0 result.1 }
    ensures placed { Placed text.now at result.0 result.1 }
    ensures within { result.1 ≤ length text.now }
{
    let end = at + 1;
    match m {
        b'"' => quoted_at(text, at),
        b'=' | b'.' | b',' | b'{' | b'}' | b'(' | b')' => (
            Token::Sign(Span { start: at, end }),
            end,
        ),
        _ => {
            if end == text.len() {
                return (Token::Wrong, end);
            }
            pair_at(text, at, m, text[end])
        }
    }
}

// A token of two marks, m and n.
fn pair_at(text: &[u8], at: usize, m: u8, n: u8) -> (Token, usize)
    requires at_in_bounds { at + 1 < length text.now }
    requires at_value { class (get_or text.now at 0) ≡ mark m }
    requires at_value_2 { get_or text.now (at + 1) 0 ≡ n }
    requires text_value { lex (drop at text.now) ≡ lead (pair m (drop (at + 1) text.now)) (tokens (drop (at + 1) text.now)) }
    ensures meant { lex (drop at text.now) ≡ tokens_meant text.now result.0 result.1 }
    ensures placed { Placed text.now at result.0 result.1 }
    ensures within { result.1 ≤ length text.now }
{
    let end = at + 2;
    match (m, n) {
        (b'-', b'>') | (b'[', b']') => (Token::Sign(Span { start: at, end }), end),
        (b'/', b'/') => comment_at(text, at),
        _ => (Token::Wrong, end),
    }
}

// The first token from `at` on, up to the end of the line, and the place past it.
pub(crate) fn token_at(text: &[u8], at: usize) -> (Token, usize)
    requires { at ≤ length text.now }
    ensures meant { lex (drop at text.now) ≡ tokens_meant text.now result.0 result.1 }
    ensures placed { Placed text.now at result.0 result.1 }
    ensures within { result.1 ≤ length text.now }
{
    for i in at..text.len() {
        match text::class_of(text[i]) {
            Class::Letter => return word_at(text, i),
            Class::Space => {}
            Class::Newline => return (Token::End, i),
            Class::Mark(m) => return mark_at(text, i, m),
            Class::Digit | Class::Foreign => return (Token::Wrong, i),
        }
    }
    (Token::End, text.len())
}
