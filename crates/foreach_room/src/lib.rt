// Room in which the elements are tried: a copy of the locals behind which y has room, and the names of a `let` where there is one.
#![tactic(auto)]

ghost use Rattle.std.specs.Prelude.{◌≡◌, List, ◌≤◌, length};
ghost use Rattle.language.specs.Syntax as Syntax;
ghost use Rattle.language.specs.State.{Element, list};
ghost use Rattle.language.specs.Values.{Session};
ghost use Rattle.language.specs.Commands.{names_for_each};
ghost use Rattle.text.specs.Meaning.{part};
ghost use Rattle.values.specs.Encoding.{Holds};
ghost use Rattle.evaluate.specs.Drafts.{Lent};
ghost use Rattle.lets.specs.Reaching.{texts};
ghost use Rattle.foreach_piece.specs.Ways.{made, throughout};
ghost use Rattle.foreach_piece.specs.Drafts.{AsList, MadeOf};
ghost use Rattle.foreach_element.specs.Turning.{Turning, SomeTurning};
ghost use Rattle.foreach_list.specs.Lists.{SomeList};
ghost use Rattle.foreach_room.specs.Terms.{WithoutLet};

use foreach_list::make_all;
use foreach_piece::{Made, Way};
use permits::Known;
use syntax::Expr;
use text::Span;

// For an expression without `let`. Of the locals' own slots only what follows is changed.
fn for_term<'a>(
    shared: &'a [u8],
    slots: &[u32],
    count: usize,
    locals: &[u8],
    len: usize,
    local_slots: &mut [u32],
    number: usize,
    assertions: &[u64],
    n: usize,
    principals: usize,
    sender: usize,
    text: &'a [u8],
    y: Span,
    e: Expr,
    known: Known,
    way: Way,
    elements: &[u8],
    value: &mut [u8],
    out: &mut [u8],
    labels: &mut [u32],
) -> Made
    requires some_turning { SomeTurning text.now (texts shared.now slots.now count locals.now local_slots.old) len number y e assertions.now n principals sender known }
    requires some_list { SomeList elements.now × Lent value.old labels.old × (32768 ≤ length out.old) }
    requires without_let { WithoutLet e }
    ensures { (s : Session) (x : Syntax.Expr) (es : List Element)
        → Turning s x text.now (texts shared.now slots.now count locals.now local_slots.old) len number y e assertions.now n principals sender known
        → Holds (list es) elements.now
        → MadeOf AsList result s (names_for_each s (part text.now y) x es) (throughout (made way s (part text.now y) x) es) out.new
        × Turning s x text.now (texts shared.now slots.now count locals.now local_slots.new) len number y e assertions.now n principals sender known }
{
    let mut scope = [0u8; 57605];
    let mut heads = [0u16; 1];
    let mut lens = [0u32; 1];
    let mut counts = [0u16; 1];
    let mut bounds = [0u16; 1];
    splice::copy(&mut scope, 0, &locals[..len]);
    make_all(
        shared,
        slots,
        count,
        &mut scope,
        len,
        local_slots,
        number,
        assertions,
        n,
        principals,
        sender,
        text,
        y,
        e,
        known,
        way,
        elements,
        &mut heads,
        &mut lens,
        &mut counts,
        &mut bounds,
        value,
        out,
        labels,
    )
}

// For a `let`: room for its names and frames is made here, once for all elements.
fn for_let<'a>(
    shared: &'a [u8],
    slots: &[u32],
    count: usize,
    locals: &[u8],
    len: usize,
    local_slots: &[u32],
    number: usize,
    assertions: &[u64],
    n: usize,
    principals: usize,
    sender: usize,
    text: &'a [u8],
    y: Span,
    e: Expr,
    known: Known,
    way: Way,
    elements: &[u8],
    value: &mut [u8],
    out: &mut [u8],
    labels: &mut [u32],
) -> Made
    requires some_turning { SomeTurning text.now (texts shared.now slots.now count locals.now local_slots.now) len number y e assertions.now n principals sender known }
    requires some_list { SomeList elements.now × Lent value.old labels.old × (32768 ≤ length out.old) }
    ensures { (s : Session) (x : Syntax.Expr) (es : List Element)
        → Turning s x text.now (texts shared.now slots.now count locals.now local_slots.now) len number y e assertions.now n principals sender known
        → Holds (list es) elements.now
        → MadeOf AsList result s (names_for_each s (part text.now y) x es) (throughout (made way s (part text.now y) x) es) out.new }
{
    let mut scope = [0u8; 90373];
    let mut scope_slots = [0u32; 8192];
    let mut heads = [0u16; 4096];
    let mut lens = [0u32; 4096];
    let mut counts = [0u16; 4096];
    let mut bounds = [0u16; 4096];
    splice::copy(&mut scope, 0, &locals[..len]);
    splice::copy(&mut scope_slots, 0, &local_slots[..number]);
    make_all(
        shared,
        slots,
        count,
        &mut scope,
        len,
        &mut scope_slots,
        number,
        assertions,
        n,
        principals,
        sender,
        text,
        y,
        e,
        known,
        way,
        elements,
        &mut heads,
        &mut lens,
        &mut counts,
        &mut bounds,
        value,
        out,
        labels,
    )
}

// Tries the elements of the list; the new list is written from the start of `out` on. The locals stay as they are, and of their slots only what
// follows is changed.
pub fn make_aside<'a>(
    shared: &'a [u8],
    slots: &[u32],
    count: usize,
    locals: &[u8],
    len: usize,
    local_slots: &mut [u32],
    number: usize,
    assertions: &[u64],
    n: usize,
    principals: usize,
    sender: usize,
    text: &'a [u8],
    y: Span,
    e: Expr,
    known: Known,
    way: Way,
    elements: &[u8],
    value: &mut [u8],
    out: &mut [u8],
    labels: &mut [u32],
) -> Made
    requires some_turning { SomeTurning text.now (texts shared.now slots.now count locals.now local_slots.old) len number y e assertions.now n principals sender known }
    requires some_list { SomeList elements.now × Lent value.old labels.old × (32768 ≤ length out.old) }
    ensures { (s : Session) (x : Syntax.Expr) (es : List Element)
        → Turning s x text.now (texts shared.now slots.now count locals.now local_slots.old) len number y e assertions.now n principals sender known
        → Holds (list es) elements.now
        → MadeOf AsList result s (names_for_each s (part text.now y) x es) (throughout (made way s (part text.now y) x) es) out.new
        × Turning s x text.now (texts shared.now slots.now count locals.now local_slots.new) len number y e assertions.now n principals sender known }
{
    match e {
        Expr::Term(_) => for_term(
            shared,
            slots,
            count,
            locals,
            len,
            local_slots,
            number,
            assertions,
            n,
            principals,
            sender,
            text,
            y,
            e,
            known,
            way,
            elements,
            value,
            out,
            labels,
        ),
        Expr::Let(_) => for_let(
            shared,
            slots,
            count,
            locals,
            len,
            local_slots,
            number,
            assertions,
            n,
            principals,
            sender,
            text,
            y,
            e,
            known,
            way,
            elements,
            value,
            out,
            labels,
        ),
    }
}
