// The answer for an expression: a term, or a `let`.
#![tactic(auto)]

ghost use Rattle.std.specs.Prelude.{◌≤◌, length};
ghost use Rattle.language.specs.Syntax as Syntax;
ghost use Rattle.language.specs.Programs.{longest};
ghost use Rattle.language.specs.Values.{Session};
ghost use Rattle.language.specs.Expressions.{value, names};
ghost use Rattle.permits.specs.Permits.{Sends};
ghost use Rattle.permits.specs.Knowledge.{terms, Knows};
ghost use Rattle.evaluate.specs.Drafts.{Lent};
ghost use Rattle.term_answer.specs.Telling.{Tells};
ghost use Rattle.lets.specs.Reaching.{texts, stack};
ghost use Rattle.expression_answer.specs.Asking.{Asked, SomeAsked, Fitted};

use evaluated::Answered;
use permits::Known;
use syntax::Expr;

// The locals stand in the first `len` bytes of `scope`, and have the first `number` slots; of both only what follows is changed, by a `let`.
// `known` is what is known of its terms.
pub fn answer<'a>(
    shared: &'a [u8],
    slots: &[u32],
    count: usize,
    scope: &mut [u8],
    len: usize,
    local_slots: &mut [u32],
    number: usize,
    assertions: &[u64],
    n: usize,
    principals: usize,
    sender: usize,
    text: &'a [u8],
    e: Expr,
    known: Known,
    heads: &mut [u16],
    lens: &mut [u32],
    counts: &mut [u16],
    bounds: &mut [u16],
    out: &mut [u8],
    labels: &mut [u32],
) -> Answered
    requires some_asked { SomeAsked text.now (texts shared.now slots.now count scope.old local_slots.old) len number e assertions.now n principals sender known }
    requires fitted { Fitted e (texts shared.now slots.now count scope.old local_slots.old) (stack heads.old lens.old counts.old bounds.old) len number }
    requires text_len_bound { (length text.now ≤ longest) × Lent out.old labels.old }
    ensures { (s : Session) (x : Syntax.Expr) → Asked s x text.now (texts shared.now slots.now count scope.old local_slots.old) len number e
        → Sends s shared.now slots.now count assertions.now n principals sender
        → Knows known s (terms x)
        → Tells result s (names s x) (value s x) out.new × Asked s x text.now (texts shared.now slots.now count scope.new local_slots.new) len number e }
{
    match e {
        Expr::Term(t) => term_answer::answer(
            shared,
            slots,
            count,
            &scope[..len],
            local_slots,
            number,
            assertions,
            n,
            principals,
            sender,
            text,
            t,
            known,
            out,
            labels,
        ),
        Expr::Let(p) => lets::answer(
            shared,
            slots,
            count,
            scope,
            len,
            local_slots,
            number,
            assertions,
            n,
            principals,
            sender,
            text,
            p,
            known,
            heads,
            lens,
            counts,
            bounds,
            out,
            labels,
        ),
    }
}
