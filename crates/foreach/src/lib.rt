// `foreach y in x replacewith e`: each element of a list is replaced by the value of an expression.
#![tactic(auto)]

ghost use Rattle.std.specs.Prelude.{◌≡◌};
ghost use Rattle.std.proofs.Math.Option.{some};
ghost use Rattle.language.specs.Syntax as Syntax;
ghost use Rattle.language.specs.Values.{Session};
ghost use Rattle.language.specs.Commands.{step};
ghost use Rattle.text.specs.Meaning.{part};
ghost use Rattle.syntax.specs.Values.{expr_meant};
ghost use Rattle.session.specs.Sessions.{slices, Running, SomeRunning};
ghost use Rattle.session.specs.Endings.{Ended};
ghost use Rattle.foreach_command.specs.Each.{Workspace};
ghost use Rattle.foreach.specs.Asked.{SomeForeach};

use foreach_command::run;
use foreach_piece::Way;
use session::{Layout, Verdict};
use syntax::Expr;
use text::Span;

// `value` and `labels` are room to work in; the list is copied before it is changed.
pub fn foreach(
    principals: &[u8],
    principal_slots: &[u32],
    vars: &mut [u8],
    variable_slots: &mut [u32],
    locals: &mut [u8],
    local_slots: &mut [u32],
    assertions: &mut [u64],
    value: &mut [u8],
    labels: &mut [u32],
    l: Layout,
    text: &[u8],
    y: Span,
    x: Span,
    e: Expr,
) -> Verdict
    requires some_running { SomeRunning l (slices principals.now principal_slots.now vars.old variable_slots.old locals.old local_slots.old assertions.old) }
    requires some_foreach { SomeForeach text.now y x e × Workspace value.old labels.old }
    ensures { (s : Session) (u : Syntax.Expr)
        → Running s l (slices principals.now principal_slots.now vars.old variable_slots.old locals.old local_slots.old assertions.old)
        → expr_meant text.now e ≡ some u
        → Ended result (step s (Syntax.foreach (part text.now y) (part text.now x) u)) (slices principals.now principal_slots.now vars.new variable_slots.new locals.new local_slots.new assertions.new) }
{
    run(
        principals,
        principal_slots,
        vars,
        variable_slots,
        locals,
        local_slots,
        assertions,
        value,
        labels,
        l,
        text,
        y,
        x,
        e,
        Way::Replace,
    )
}
