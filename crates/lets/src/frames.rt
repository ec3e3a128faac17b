// The frames of an evaluation: one for each `let` whose first expression is evaluated, kept as four numbers by its depth.
ghost use Rattle.std.specs.Prelude.{◌≡◌, List, ◌<◌, length, get_or, set, drop};
ghost use Rattle.std.proofs.Math.Option.{some};
ghost use Rattle.language.specs.Syntax.{Name};
ghost use Rattle.language.specs.Tokens.{Token, lex};
ghost use Rattle.language.specs.Values.{Session};
ghost use Rattle.text.specs.Meaning.{part, Within};
ghost use Rattle.expression_readers.specs.Heads.{let_head};
ghost use Rattle.lets.specs.Frames.{Frame};
ghost use Rattle.lets.specs.Reaching.{texts};
ghost use Rattle.lets.specs.Standing.{SomeHead, SomeFrame, Framed, Standing, SomeStanding, taken};

use crate::place::Place;
use expression_readers::read_let;
use text::Span;
use tokens::scanner::Scanner;

// One frame more.
pub fn push(heads: &mut [u16], lens: &mut [u32], counts: &mut [u16], bounds: &mut [u16], at: Place)
    requires depth_in_bounds { (at.depth < length heads.old) × (at.depth < length lens.old) × (at.depth < length counts.old) × (at.depth < length bounds.old) }
    requires p_bound { (at.p < 65536) × (at.len < 4294967296) × (at.count < 65536) × (at.bound < 65536) }
    ensures { (heads.new ≡ set heads.old at.depth at.p) × (lens.new ≡ set lens.old at.depth at.len)
        × (counts.new ≡ set counts.old at.depth at.count) × (bounds.new ≡ set bounds.old at.depth at.bound) }
{
    let d = at.depth;
    heads[d] = at.p as u16;
    lens[d] = at.len as u32;
    counts[d] = at.count as u16;
    bounds[d] = at.bound as u16;
}

// A number of a frame, by its depth.
pub fn small(numbers: &[u16], d: usize) -> usize
    requires { d < length numbers.now }
    ensures { (result ≡ get_or numbers.now d 0) × (result < 65536) }
{
    numbers[d] as usize
}

pub fn large(numbers: &[u32], d: usize) -> usize
    requires { d < length numbers.now }
    ensures { result ≡ get_or numbers.now d 0 }
{
    numbers[d] as usize
}

// The name that the `let` at a place binds.
fn name_at(text: &[u8], at: usize) -> Span
    requires { SomeHead text.now at }
    ensures within { Within text.now result }
    ensures named { (x : Name) (us : List Token) → let_head (lex (drop at text.now)) ≡ some (x, us) → part text.now result ≡ x }
{
    let mut scanner = Scanner { text, at };
    read_let(&mut scanner).unwrap_or(Span { start: 0, end: 0 })
}

// The name of a frame's `let`.
pub fn name_of(text: &[u8], heads: &[u16], d: usize) -> Span
    requires { SomeFrame text.now heads.now d }
    ensures within { Within text.now result }
    ensures named { (k : Frame) → Framed text.now heads.now d k → part text.now result ≡ k.name }
{
    name_at(text, small(heads, d))
}

// Whether the name of a frame's `let` is defined where the `let` stands.
pub fn is_taken<'a>(
    shared: &'a [u8],
    slots: &[u32],
    count: usize,
    scope: &'a [u8],
    local_slots: &[u32],
    text: &[u8],
    heads: &[u16],
    lens: &[u32],
    counts: &[u16],
    d: usize,
) -> bool
    requires { SomeStanding text.now (texts shared.now slots.now count scope.now local_slots.now) heads.now lens.now counts.now d }
    ensures { (s : Session) (k : Frame) → Standing s k text.now (texts shared.now slots.now count scope.now local_slots.now)
        heads.now lens.now counts.now d → result ≡ taken s k }
{
    let x = name_of(text, heads, d);
    let a = x.start;
    let b = x.end;
    let len = large(lens, d);
    let n = small(counts, d);
    scopes::is_defined(
        shared,
        slots,
        count,
        &scope[..len],
        local_slots,
        n,
        &text[a..b],
    )
}
