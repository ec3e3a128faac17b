// The answer for an expression with `let` (request M-106). Lets nest as deep as a program is long, so that nothing here calls itself: a loop
// goes through the text, and the lets whose first expression is evaluated are frames in lent slices.
#![tactic(auto)]

mod binding; // a name bound
mod frames; // the frames of lets
mod place; // how far the evaluation has come
mod sinking; // what is too heavy under the frames

ghost use Rattle.std.specs.Prelude.{◌≡◌, ℕ, ◌≤◌, length, drop};
ghost use Rattle.std.proofs.Math.Option.{none};
ghost use Rattle.language.specs.Text.{Text};
ghost use Rattle.language.specs.Tokens.{lex};
ghost use Rattle.language.specs.Grammar.{any_term};
ghost use Rattle.language.specs.Syntax as Syntax;
ghost use Rattle.language.specs.Programs.{longest};
ghost use Rattle.language.specs.Values.{Session};
ghost use Rattle.language.specs.Expressions.{value, names};
ghost use Rattle.permits.specs.Permits.{Sends};
ghost use Rattle.permits.specs.Knowledge.{Knows, terms};
ghost use Rattle.evaluate.specs.Drafts.{Lent};
ghost use Rattle.term_answer.specs.Telling.{Tells};
ghost use Rattle.lets.specs.Reaching.{Texts, texts, stack, Reached, Sized, Stepped};
ghost use Rattle.lets.specs.Giving.{AtTerm, Given, SomeGiven, SomeEntered, SomeLeft, Starts, SomeStart};

use binding::{Bound, bind};
use evaluated::Answered;
use expression_readers::read_let;
use frames::push;
use permits::{Known, behind};
use place::Place;
use sinking::sink;
use std::ops::ControlFlow;
use syntax::Term;
use term_readers::read_term;
use tokens::scanner::Scanner;

// The first expression of the innermost `let` has a value: its name is bound to that, and its second expression is next. `at` is the place
// past the value's term, before `in`; `known` is what is known of the terms from there on.
fn returned(
    shared: &[u8],
    slots: &[u32],
    count: usize,
    scope: &mut [u8],
    local_slots: &mut [u32],
    text: &[u8],
    heads: &[u16],
    lens: &[u32],
    counts: &[u16],
    bounds: &[u16],
    depth: usize,
    at: usize,
    known: Known,
    value: &[u8],
    weight: usize,
) -> ControlFlow<Answered, Place>
    requires { SomeGiven text.now (texts shared.now slots.now count scope.old local_slots.old) (stack heads.now lens.now counts.now bounds.now) depth at known value.now weight }
    ensures { (s : Session) (x : Syntax.Expr) (base number : ℕ)
        → Given s x text.now (texts shared.now slots.now count scope.old local_slots.old)
        (stack heads.now lens.now counts.now bounds.now) base number depth at known value.now weight
        → (out : Text) → Stepped result s x text.now (texts shared.now slots.now count scope.new local_slots.new)
        (stack heads.now lens.now counts.now bounds.now) base number at out }
{
    let d = depth - 1;
    let b = bind(
        shared,
        slots,
        count,
        scope,
        local_slots,
        text,
        heads,
        lens,
        counts,
        bounds,
        d,
        value,
        weight,
    );
    match b {
        Bound::Defined => ControlFlow::Break(Answered::Missing),
        Bound::Heavy => ControlFlow::Break(sink(
            shared,
            slots,
            count,
            scope,
            local_slots,
            text,
            heads,
            lens,
            counts,
            d,
        )),
        Bound::Done(len, n, bound) => {
            let mut scanner = Scanner { text, at };
            let Some(()) = scanner.expect(b"in") else {
                return ControlFlow::Break(Answered::Missing);
            };
            ControlFlow::Continue(Place {
                p: scanner.at,
                depth: d,
                len,
                count: n,
                bound,
                known,
            })
        }
    }
}

// A `let`: its frame is pushed, and its first expression is next.
fn enter(
    text: &[u8],
    heads: &mut [u16],
    lens: &mut [u32],
    counts: &mut [u16],
    bounds: &mut [u16],
    at: Place,
) -> ControlFlow<Answered, Place>
    requires { SomeEntered text.now (stack heads.old lens.old counts.old bounds.old) at }
    ensures { (s : Session) (x : Syntax.Expr) (b : Texts) (base number : ℕ) → Reached s x text.now b (stack heads.old lens.old counts.old bounds.old) base number at
        → (out : Text) → Stepped result s x text.now b (stack heads.new lens.new counts.new bounds.new) base number at.p out }
{
    let mut scanner = Scanner { text, at: at.p };
    let Some(_) = read_let(&mut scanner) else {
        return ControlFlow::Break(Answered::Missing);
    };
    push(heads, lens, counts, bounds, at);
    ControlFlow::Continue(Place {
        p: scanner.at,
        depth: at.depth + 1,
        ..at
    })
}

// A term, which ends before `end`: its value is that of the expression, or of the first expression of the innermost `let`.
fn leave<'a>(
    shared: &'a [u8],
    slots: &[u32],
    count: usize,
    scope: &mut [u8],
    local_slots: &mut [u32],
    assertions: &[u64],
    n: usize,
    principals: usize,
    sender: usize,
    text: &'a [u8],
    e: Term,
    end: usize,
    heads: &[u16],
    lens: &[u32],
    counts: &[u16],
    bounds: &[u16],
    at: Place,
    out: &mut [u8],
    labels: &mut [u32],
) -> ControlFlow<Answered, Place>
    requires some_left { SomeLeft text.now (texts shared.now slots.now count scope.old local_slots.old) (stack heads.now lens.now counts.now bounds.now) at assertions.now n principals sender }
    requires at_term { AtTerm text.now at.p e end × (length text.now ≤ longest) × Lent out.old labels.old }
    ensures { (s : Session) (x : Syntax.Expr) (base number : ℕ)
        → Reached s x text.now (texts shared.now slots.now count scope.old local_slots.old)
        (stack heads.now lens.now counts.now bounds.now) base number at
        → Sized (texts shared.now slots.now count scope.old local_slots.old) (stack heads.now lens.now counts.now bounds.now) base number
        → Sends s shared.now slots.now count assertions.now n principals sender
        → Stepped result s x text.now (texts shared.now slots.now count scope.new local_slots.new)
        (stack heads.now lens.now counts.now bounds.now) base number at.p out.new }
{
    let len = at.len;
    let depth = at.depth;
    let known = at.known;
    let r = term_answer::answer(
        shared,
        slots,
        count,
        &scope[..len],
        local_slots,
        at.count,
        assertions,
        n,
        principals,
        sender,
        text,
        e,
        known,
        out,
        labels,
    );
    match r {
        Answered::Denied => ControlFlow::Break(Answered::Denied),
        Answered::Missing => ControlFlow::Break(Answered::Missing),
        Answered::Heavy => ControlFlow::Break(sink(
            shared,
            slots,
            count,
            scope,
            local_slots,
            text,
            heads,
            lens,
            counts,
            depth,
        )),
        Answered::Value { len, weight } => {
            if depth == 0 {
                return ControlFlow::Break(Answered::Value { len, weight });
            }
            returned(
                shared,
                slots,
                count,
                scope,
                local_slots,
                text,
                heads,
                lens,
                counts,
                bounds,
                depth,
                end,
                behind(known),
                &out[..len],
                weight,
            )
        }
    }
}

// One step: a term, or a `let`.
fn step<'a>(
    shared: &'a [u8],
    slots: &[u32],
    count: usize,
    scope: &mut [u8],
    local_slots: &mut [u32],
    assertions: &[u64],
    n: usize,
    principals: usize,
    sender: usize,
    text: &'a [u8],
    heads: &mut [u16],
    lens: &mut [u32],
    counts: &mut [u16],
    bounds: &mut [u16],
    at: Place,
    out: &mut [u8],
    labels: &mut [u32],
) -> ControlFlow<Answered, Place>
    requires some_left { SomeLeft text.now (texts shared.now slots.now count scope.old local_slots.old) (stack heads.old lens.old counts.old bounds.old) at assertions.now n principals sender }
    requires text_len_bound { (length text.now ≤ longest) × Lent out.old labels.old }
    ensures { (s : Session) (x : Syntax.Expr) (base number : ℕ)
        → Reached s x text.now (texts shared.now slots.now count scope.old local_slots.old)
        (stack heads.old lens.old counts.old bounds.old) base number at
        → Sized (texts shared.now slots.now count scope.old local_slots.old) (stack heads.old lens.old counts.old bounds.old) base number
        → Sends s shared.now slots.now count assertions.now n principals sender
        → Stepped result s x text.now (texts shared.now slots.now count scope.new local_slots.new)
        (stack heads.new lens.new counts.new bounds.new) base number at.p out.new }
{
    let mut scanner = Scanner { text, at: at.p };
    match read_term(&mut scanner) {
        Some(e) => leave(
            shared,
            slots,
            count,
            scope,
            local_slots,
            assertions,
            n,
            principals,
            sender,
            text,
            e,
            scanner.at,
            heads,
            lens,
            counts,
            bounds,
            at,
            out,
            labels,
        ),
        None => enter(text, heads, lens, counts, bounds, at),
    }
}

// The answer for the expression that stands from `at` on. The locals stand in the first `len` bytes of `scope`, and have the first `number` slots;
// of both only what follows is changed. `known` is what is known of its terms.
pub fn answer<'a>(
    shared: &'a [u8],
    slots: &[u32],
    count: usize,
    scope: &mut [u8],
    len: usize,
    local_slots: &mut [u32],
    number: usize,
    assertions: &[u64],
    n: usize,
    principals: usize,
    sender: usize,
    text: &'a [u8],
    at: usize,
    known: Known,
    heads: &mut [u16],
    lens: &mut [u32],
    counts: &mut [u16],
    bounds: &mut [u16],
    out: &mut [u8],
    labels: &mut [u32],
) -> Answered
    requires some_start { SomeStart text.now (texts shared.now slots.now count scope.old local_slots.old) len number at assertions.now n principals sender known }
    requires sized { Sized (texts shared.now slots.now count scope.old local_slots.old) (stack heads.old lens.old counts.old bounds.old) len number }
    requires text_len_bound { (length text.now ≤ longest) × Lent out.old labels.old }
    ensures { (s : Session) (x : Syntax.Expr) → Starts s x text.now (texts shared.now slots.now count scope.old local_slots.old) len number at
        → Sends s shared.now slots.now count assertions.now n principals sender
        → Knows known s (terms x)
        → Tells result s (names s x) (value s x) out.new × Starts s x text.now (texts shared.now slots.now count scope.new local_slots.new) len number at }
{
    let mut place = Place {
        p: at,
        depth: 0,
        len,
        count: number,
        bound: 0,
        known,
    };
    loop {
        let next = step(
            shared,
            slots,
            count,
            scope,
            local_slots,
            assertions,
            n,
            principals,
            sender,
            text,
            heads,
            lens,
            counts,
            bounds,
            place,
            out,
            labels,
        );
        match next {
            ControlFlow::Continue(further) => place = further,
            ControlFlow::Break(r) => return r,
        }
    }
}
