// The assertions of a state text, one in each line (A), read as numbers. Document 01, "State text".
#![tactic(auto)]

ghost use Rattle.std.specs.Prelude.{◌≡◌, List, ◌+◌, ◌≤◌, ◌<◌, length, get_or, eqb, MatchOption};
ghost use Rattle.language.specs.Text.{any};
ghost use Rattle.text.specs.Parts.{part};
ghost use Rattle.store.specs.Rows.{Row, Rows, row_names};
ghost use Rattle.assertion_lines.specs.Assertions.{code_of, Enrolled, AssertionMeant, AssertionsMeant};

use assertion::{APPEND, DELEGATE, READ, WRITE};
use contents::name_weight;
use record_fields::{LIMIT, Section};
use references::known_at;

// Where the principals and the variables stand, and how many there are.
#[derive(Clone, Copy)]
pub struct Roll {
    pub principals_from: usize,
    pub principals_to: usize,
    pub principals: usize,
    pub vars_from: usize,
    pub vars_to: usize,
    pub vars: usize,
}

// An assertion's number, where its line ends, and what is weighed with it.
#[derive(Clone, Copy)]
pub struct AssertionRead {
    pub number: u64,
    pub end: usize,
    pub weighed: usize,
}

// A right's number by its letter.
fn right_code(b: u8) -> Option<u16>
    ensures { MatchOption result (code_of b ≡ 4) (λ k. (k ≡ code_of b) × (k < 4)) }
{
    match b {
        b'r' => Some(READ),
        b'w' => Some(WRITE),
        b'a' => Some(APPEND),
        b'd' => Some(DELEGATE),
        _ => None,
    }
}

// One assertion's line.
fn assertion_at(
    text: &[u8],
    at: usize,
    w: usize,
    roll: Roll,
    principals: &[u32],
    vars: &[u32],
) -> Option<AssertionRead>
    requires { Enrolled text.now roll principals.now vars.now × (get_or text.now at 0 ≡ 65) × (w ≤ 8192) }
    ensures { (prows vrows : List Row) → Rows prows (part text.now roll.principals_from roll.principals_to) roll.principals principals.now
        → Rows vrows (part text.now roll.vars_from roll.vars_to) roll.vars vars.now
        → AssertionMeant (row_names prows) (row_names vrows) text.now at w result }
{
    if lines::byte_at(text, at + 1) != b'\t' {
        return None;
    }
    let (x, m) = known_at(
        text,
        at + 2,
        b'\t',
        roll.vars_from,
        roll.vars_to,
        vars,
        roll.vars,
    )?;
    let (q, n) = known_at(
        text,
        m + 1,
        b'\t',
        roll.principals_from,
        roll.principals_to,
        principals,
        roll.principals,
    )?;
    let right = right_code(lines::byte_at(text, n + 1))?;
    if lines::byte_at(text, n + 2) != b'\t' {
        return None;
    }
    let (p, e) = known_at(
        text,
        n + 3,
        b'\n',
        roll.principals_from,
        roll.principals_to,
        principals,
        roll.principals,
    )?;
    let a = m + 1;
    let b = n + 3;
    let weighed = w + (m - (at + 2)) + 1 + name_weight(&text[a..n]) + name_weight(&text[b..e]);
    if weighed > LIMIT {
        return None;
    }
    Some(AssertionRead {
        number: assertion::pack(x, q, right, p),
        end: e + 1,
        weighed,
    })
}

// Whether a number is among others. The loop has no exit.
fn is_among(assertions: &[u64], number: u64) -> bool
    ensures { result ≡ any (eqb number) assertions.now }
{
    let mut hit = false;
    for assertion in assertions {
        if *assertion == number {
            hit = true;
        }
    }
    hit
}

// The assertions, none of them twice, as numbers.
pub fn assertions(
    text: &[u8],
    at: usize,
    w: usize,
    roll: Roll,
    principals: &[u32],
    vars: &[u32],
    assertions: &mut [u64],
) -> Option<Section>
    requires { Enrolled text.now roll principals.now vars.now × (at ≤ length text.now) × (w ≤ 8192) × (length assertions.old ≡ 2048) }
    ensures { (prows vrows : List Row) → Rows prows (part text.now roll.principals_from roll.principals_to) roll.principals principals.now
        → Rows vrows (part text.now roll.vars_from roll.vars_to) roll.vars vars.now
        → AssertionsMeant (row_names prows) (row_names vrows) text.now at w assertions.new result }
{
    let mut i = at;
    let mut n = 0;
    let mut now = w;
    while lines::byte_at(text, i) == b'A' {
        let line = assertion_at(text, i, now, roll, principals, vars)?;
        if is_among(&assertions[..n], line.number) {
            return None;
        }
        assertions[n] = line.number;
        n += 1;
        i = line.end;
        now = line.weighed;
    }
    Some(Section {
        end: i,
        count: n,
        weighed: now,
    })
}
