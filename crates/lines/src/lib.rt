// The fields of one line of the state text: names, strings and counts of programs.
#![tactic(auto)]

ghost use Rattle.std.specs.Prelude.{◌≡◌, Bool, true, false, ◌+◌, ◌≤◌, ◌<◌, T, length, drop, get_or};
ghost use Rattle.language.specs.Text.{all, front};
ghost use Rattle.language.specs.Bytes.{class, is_letter, word_byte};
ghost use Rattle.language.specs.Identifiers.{is_name};
ghost use Rattle.text.specs.Meaning.{in_alphabet};
ghost use Rattle.lines.specs.Cuts.{CutMeant, NumberMeant, is_digit, Worth};

use text::{Alphabet, Class};

// The greatest count of completed programs.
const LAST_COUNT: u64 = 4294967295;

// The byte at a place, 0 past the end.
pub fn byte_at(text: &[u8], at: usize) -> u8
    ensures { result ≡ get_or text.now at 0 }
{
    text.get(at).copied().unwrap_or(0)
}

// Where a field of an alphabet's bytes that `stop` ends has its end.
pub fn run_cut(text: &[u8], at: usize, a: Alphabet, stop: u8) -> Option<usize>
    requires { (at ≤ length text.now) × (in_alphabet a stop ≡ false) }
    ensures { CutMeant (all (in_alphabet a)) stop text.now at result }
{
    let e = text::run_end(text, at, a);
    if e >= text.len() || text[e] != stop {
        return None;
    }
    Some(e)
}

fn is_letter(b: u8) -> bool
    ensures { result ≡ is_letter (class b) }
{
    matches!(text::class_of(b), Class::Letter)
}

// Whether a run of letters, digits and underscores is a name that a state may hold.
fn is_name(w: &[u8]) -> bool
    requires { T (all word_byte w.now) }
    ensures { result ≡ is_name w.now }
{
    if w.is_empty() || w.len() > 255 {
        return false;
    }
    is_letter(w[0]) && !keywords::is_base_keyword(w)
}

// Where a name that `stop` ends has its end.
pub fn name_end(text: &[u8], at: usize, stop: u8) -> Option<usize>
    requires { (at ≤ length text.now) × (word_byte stop ≡ false) }
    ensures { CutMeant is_name stop text.now at result }
{
    let e = run_cut(text, at, Alphabet::Word, stop)?;
    if !is_name(&text[at..e]) {
        return None;
    }
    Some(e)
}

// The end of the run of digits that starts at `at`.
fn digits_end(text: &[u8], at: usize) -> usize
    requires { at ≤ length text.now }
    ensures ends { result ≡ at + length (front is_digit (drop at text.now)) }
{
    for i in at..text.len() {
        if !text[i].is_ascii_digit() {
            return i;
        }
    }
    text.len()
}

// What digits are worth, up to the greatest count of programs.
fn value_of(w: &[u8]) -> u64
    requires { T (all is_digit w.now) }
    ensures { Worth w.now result }
{
    let mut n: u64 = 0;
    for b in w {
        n = n * 10 + u64::from(*b - b'0');
        if n > LAST_COUNT {
            return n;
        }
    }
    n
}

// A decimal number without a leading zero that ends the line, and where it ends.
pub fn number_at(text: &[u8], at: usize) -> Option<(u64, usize)>
    requires { at ≤ length text.now }
    ensures { NumberMeant text.now at result }
{
    let e = digits_end(text, at);
    if e >= text.len() || text[e] != b'\n' {
        return None;
    }
    let size = e - at;
    if size == 0 || size > 10 {
        return None;
    }
    if text[at] == b'0' && size > 1 {
        return None;
    }
    let n = value_of(&text[at..e]);
    if n > LAST_COUNT {
        return None;
    }
    Some((n, e))
}
