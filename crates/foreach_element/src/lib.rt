// What foreach and filtereach leave of one element: the expression is evaluated with y, last among the locals, for it.
#![tactic(auto)]

ghost use Rattle.std.specs.Prelude.{◌≡◌, ◌≤◌, length};
ghost use Rattle.language.specs.Syntax as Syntax;
ghost use Rattle.language.specs.State.{Element, single};
ghost use Rattle.language.specs.Values.{Session};
ghost use Rattle.language.specs.Expressions.{names};
ghost use Rattle.language.specs.Commands.{with_element};
ghost use Rattle.text.specs.Meaning.{part};
ghost use Rattle.values.specs.Encoding.{Holds};
ghost use Rattle.evaluate.specs.Drafts.{Lent};
ghost use Rattle.lets.specs.Reaching.{texts, stack};
ghost use Rattle.foreach_piece.specs.Ways.{made};
ghost use Rattle.foreach_piece.specs.Drafts.{Pieces, MadeOf, SomeElement};
ghost use Rattle.foreach_element.specs.Turning.{Turning, SomeTurning, Room};

use foreach_piece::{Made, Way, settled};
use permits::Known;
use syntax::Expr;
use text::Span;

// Of the locals' text and slots only what follows is changed. `known` is what is known of the expression's terms, whatever the element.
pub fn turn<'a>(
    shared: &'a [u8],
    slots: &[u32],
    count: usize,
    scope: &mut [u8],
    len: usize,
    local_slots: &mut [u32],
    number: usize,
    assertions: &[u64],
    n: usize,
    principals: usize,
    sender: usize,
    text: &'a [u8],
    y: Span,
    e: Expr,
    known: Known,
    way: Way,
    element: &[u8],
    heads: &mut [u16],
    lens: &mut [u32],
    counts: &mut [u16],
    bounds: &mut [u16],
    out: &mut [u8],
    labels: &mut [u32],
) -> Made
    requires some_turning { SomeTurning text.now (texts shared.now slots.now count scope.old local_slots.old) len number y e assertions.now n principals sender known }
    requires room { Room e (texts shared.now slots.now count scope.old local_slots.old) (stack heads.old lens.old counts.old bounds.old) number }
    requires some_element { SomeElement element.now × Lent out.old labels.old }
    ensures { (s : Session) (x : Syntax.Expr) (a : Element)
        → Turning s x text.now (texts shared.now slots.now count scope.old local_slots.old) len number y e assertions.now n principals sender known
        → Holds (single a) element.now
        → MadeOf Pieces result s (names (with_element s (part text.now y) a) x) (made way s (part text.now y) x a) out.new
        × Turning s x text.now (texts shared.now slots.now count scope.new local_slots.new) len number y e assertions.now n principals sender known }
{
    let a = y.start;
    let b = y.end;
    let end = edits::add::add_variable(scope, len, local_slots, number, &text[a..b], element);
    let r = expression_answer::answer(
        shared,
        slots,
        count,
        scope,
        end,
        local_slots,
        number + 1,
        assertions,
        n,
        principals,
        sender,
        text,
        e,
        known,
        heads,
        lens,
        counts,
        bounds,
        out,
        labels,
    );
    settled(way, element, out, r)
}
