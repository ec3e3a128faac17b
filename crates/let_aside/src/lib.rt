// Room for the names and the frames of a `let`, made once for a command that has one.
#![tactic(auto)]

ghost use Rattle.std.specs.Prelude.{◌≤◌, length};
ghost use Rattle.language.specs.Syntax as Syntax;
ghost use Rattle.language.specs.Programs.{longest};
ghost use Rattle.language.specs.Values.{Session};
ghost use Rattle.language.specs.Expressions.{value, names};
ghost use Rattle.permits.specs.Permits.{Sends};
ghost use Rattle.evaluate.specs.Drafts.{Lent};
ghost use Rattle.term_answer.specs.Telling.{Tells};
ghost use Rattle.lets.specs.Reaching.{texts};
ghost use Rattle.lets.specs.Giving.{Starts};
ghost use Rattle.let_aside.specs.Aside.{SomeAside};

use evaluated::Answered;
use permits::Known;

// The answer for the `let` that stands from `at` on, over a copy of the locals, which has room for its names.
pub fn answer<'a>(
    shared: &'a [u8],
    slots: &[u32],
    count: usize,
    locals: &[u8],
    local_slots: &[u32],
    number: usize,
    assertions: &[u64],
    n: usize,
    principals: usize,
    sender: usize,
    text: &'a [u8],
    at: usize,
    out: &mut [u8],
    labels: &mut [u32],
) -> Answered
    requires some_aside { SomeAside text.now (texts shared.now slots.now count locals.now local_slots.now) number at assertions.now n principals sender }
    requires text_len_bound { (length text.now ≤ longest) × Lent out.old labels.old }
    ensures { (s : Session) (x : Syntax.Expr) → Starts s x text.now (texts shared.now slots.now count locals.now local_slots.now) (length locals.now) number at
        → Sends s shared.now slots.now count assertions.now n principals sender
        → Tells result s (names s x) (value s x) out.new }
{
    let mut scope = [0u8; 65536];
    let mut scope_slots = [0u32; 8192];
    let mut heads = [0u16; 4096];
    let mut lens = [0u32; 4096];
    let mut counts = [0u16; 4096];
    let mut bounds = [0u16; 4096];
    splice::copy(&mut scope, 0, locals);
    splice::copy(&mut scope_slots, 0, &local_slots[..number]);
    lets::answer(
        shared,
        slots,
        count,
        &mut scope,
        locals.len(),
        &mut scope_slots,
        number,
        assertions,
        n,
        principals,
        sender,
        text,
        at,
        Known::Nothing,
        &mut heads,
        &mut lens,
        &mut counts,
        &mut bounds,
        out,
        labels,
    )
}
