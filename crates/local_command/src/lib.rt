// The command local on a running session.
#![tactic(auto)]

ghost use Rattle.std.specs.Prelude.{◌≡◌};
ghost use Rattle.std.proofs.Math.Option.{some};
ghost use Rattle.language.specs.Syntax as Syntax;
ghost use Rattle.language.specs.Values.{Session};
ghost use Rattle.language.specs.Commands.{step};
ghost use Rattle.text.specs.Meaning.{part};
ghost use Rattle.syntax.specs.Values.{expr_meant};
ghost use Rattle.session.specs.Sessions.{slices, Running, SomeRunning};
ghost use Rattle.session.specs.Endings.{Ended};
ghost use Rattle.settlement.specs.Commands.{Names, Scratch};

use assignment::declare;
use session::{Layout, Verdict};
use settlement::{Settled, settle, verdict};
use syntax::Expr;
use text::Span;

// local x = e
pub fn local<'a>(
    principals: &[u8],
    principal_slots: &[u32],
    vars: &'a [u8],
    variable_slots: &[u32],
    locals: &mut [u8],
    local_slots: &mut [u32],
    assertions: &[u64],
    value: &mut [u8],
    labels: &mut [u32],
    l: Layout,
    text: &'a [u8],
    x: Span,
    e: Expr,
) -> Verdict
    requires some_running { SomeRunning l (slices principals.now principal_slots.now vars.now variable_slots.now locals.old local_slots.old assertions.now) }
    requires names { Names text.now x e × Scratch value.old labels.old }
    ensures { (s : Session) (y : Syntax.Expr)
        → Running s l (slices principals.now principal_slots.now vars.now variable_slots.now locals.old local_slots.old assertions.now)
        → expr_meant text.now e ≡ some y
        → Ended result (step s (Syntax.local (part text.now x) y))
        (slices principals.now principal_slots.now vars.now variable_slots.now locals.new local_slots.new assertions.now) }
{
    let a = x.start;
    let b = x.end;
    let name = &text[a..b];
    let v = lookup::answer(
        vars,
        variable_slots,
        locals,
        local_slots,
        assertions,
        l,
        text,
        e,
        value,
        labels,
    );
    let defined = lookup::is_defined(vars, variable_slots, locals, local_slots, l, name);
    match settle(v, !defined) {
        Settled::Over(r) => r,
        Settled::Value { len, weight } => {
            let done = declare(locals, local_slots, l, name, &value[..len], weight);
            verdict(done)
        }
    }
}
