// The command set on a running session.
#![tactic(auto)]

ghost use Rattle.std.specs.Prelude.{◌≡◌};
ghost use Rattle.std.proofs.Math.Option.{some};
ghost use Rattle.language.specs.Syntax as Syntax;
ghost use Rattle.language.specs.Values.{Session};
ghost use Rattle.language.specs.Commands.{step};
ghost use Rattle.text.specs.Meaning.{part};
ghost use Rattle.syntax.specs.Values.{expr_meant};
ghost use Rattle.session.specs.Sessions.{slices, Running, SomeRunning};
ghost use Rattle.session.specs.Endings.{Ended};
ghost use Rattle.settlement.specs.Commands.{Names, Scratch};

use assertion::WRITE;
use assignment::assign;
use session::{Layout, Verdict};
use settlement::{Settled, settle, verdict};
use syntax::Expr;
use text::Span;

// set x = e
pub fn set(
    principals: &[u8],
    principal_slots: &[u32],
    vars: &mut [u8],
    variable_slots: &mut [u32],
    locals: &mut [u8],
    local_slots: &mut [u32],
    assertions: &mut [u64],
    value: &mut [u8],
    labels: &mut [u32],
    l: Layout,
    text: &[u8],
    x: Span,
    e: Expr,
) -> Verdict
    requires some_running { SomeRunning l (slices principals.now principal_slots.now vars.old variable_slots.old locals.old local_slots.old assertions.old) }
    requires names { Names text.now x e × Scratch value.old labels.old }
    ensures { (s : Session) (y : Syntax.Expr)
        → Running s l (slices principals.now principal_slots.now vars.old variable_slots.old locals.old local_slots.old assertions.old)
        → expr_meant text.now e ≡ some y
        → Ended result (step s (Syntax.set (part text.now x) y))
        (slices principals.now principal_slots.now vars.new variable_slots.new locals.new local_slots.new assertions.new) }
{
    let a = x.start;
    let b = x.end;
    let name = &text[a..b];
    if !lookup::may_do(vars, variable_slots, assertions, l, name, WRITE) {
        return Verdict::Denied;
    }
    let v = lookup::answer(
        vars,
        variable_slots,
        locals,
        local_slots,
        assertions,
        l,
        text,
        e,
        value,
        labels,
    );
    match settle(v, true) {
        Settled::Over(r) => r,
        Settled::Value { len, weight } => {
            let done = assign(
                principals,
                principal_slots,
                vars,
                variable_slots,
                locals,
                local_slots,
                assertions,
                l,
                name,
                &value[..len],
                weight,
            );
            verdict(done)
        }
    }
}
