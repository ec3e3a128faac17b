// The ending `return e`: the value that the program prints.
#![tactic(auto)]

ghost use Rattle.std.specs.Prelude.{◌≡◌, ◌≤◌, length};
ghost use Rattle.std.proofs.Math.Option.{some};
ghost use Rattle.language.specs.Syntax as Syntax;
ghost use Rattle.language.specs.Programs.{longest};
ghost use Rattle.language.specs.Values.{Session};
ghost use Rattle.language.specs.Commands.{step};
ghost use Rattle.syntax.specs.Values.{expr_meant, SomeExpr};
ghost use Rattle.evaluate.specs.Drafts.{Lent};
ghost use Rattle.session.specs.Sessions.{slices, Running, SomeRunning};
ghost use Rattle.returning.specs.Returns.{Given, answer_to};

use evaluated::Answered;
use refusal::Refusal;
use session::Layout;
use syntax::Expr;

// What the answer for the expression makes of the ending.
fn answered(r: Answered) -> Result<usize, Refusal>
    ensures { result ≡ answer_to r }
{
    match r {
        Answered::Denied => Err(Refusal::Denied),
        Answered::Missing => Err(Refusal::Failed),
        Answered::Heavy => Err(Refusal::Full),
        Answered::Value { len, weight: _ } => Ok(len),
    }
}

// Writes the value of the expression that the program's text says at the places e, from the start of `value` on, where it may be returned: how many
// bytes its text has, or why the ending is refused.
pub fn value<'a>(
    principals: &[u8],
    principal_slots: &[u32],
    vars: &'a [u8],
    variable_slots: &[u32],
    locals: &'a [u8],
    local_slots: &[u32],
    assertions: &[u64],
    value: &mut [u8],
    labels: &mut [u32],
    l: Layout,
    text: &'a [u8],
    e: Expr,
) -> Result<usize, Refusal>
    requires some_running { SomeRunning l (slices principals.now principal_slots.now vars.now variable_slots.now locals.now local_slots.now assertions.now) }
    requires some_expr { SomeExpr text.now e × (length text.now ≤ longest) }
    requires lent { Lent value.old labels.old }
    ensures { (s : Session) (x : Syntax.Expr)
        → Running s l (slices principals.now principal_slots.now vars.now variable_slots.now locals.now local_slots.now assertions.now)
        → expr_meant text.now e ≡ some x → Given result (step s (Syntax.return x)) s value.new }
{
    let r = lookup::any_answer(
        vars,
        variable_slots,
        locals,
        local_slots,
        assertions,
        l,
        text,
        e,
        value,
        labels,
    );
    answered(r)
}
