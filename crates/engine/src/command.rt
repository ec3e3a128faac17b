// One command, and the line that it prints.
ghost use Rattle.std.specs.Prelude.{◌≡◌, ◌+◌, ◌≤◌, length};
ghost use Rattle.std.proofs.Math.Option.{some};
ghost use Rattle.language.specs.Programs.{longest};
ghost use Rattle.language.specs.Syntax as Syntax;
ghost use Rattle.language.specs.Values.{Session};
ghost use Rattle.language.specs.Commands.{Step, step};
ghost use Rattle.command_readers.specs.Commands.{command_meant, SomeCommand};
ghost use Rattle.session.specs.Sessions.{Slices, Running, SomeRunning, slices};
ghost use Rattle.status.specs.Acts.{Acts, SomeActed};
ghost use Rattle.engine.specs.Commands.{Carried};

use command_readers::Command;
use refusal::Refusal;
use session::Layout;
use status::{Acted, print};

// Prints the line of a command that was not refused: the session after it, and where the output ends.
pub(crate) fn tell(
    a: Acted,
    value: &[u8],
    l: Layout,
    output: &mut [u8],
    at: usize,
) -> Result<(Layout, usize), Refusal>
    requires { SomeActed a l value.now × (at + 28707 ≤ length output.old) }
    ensures { (k : Step) (s : Session) (b : Slices) → Acts a k s l b value.now → Carried result k b output.old at output.new }
{
    match a {
        Acted::Refused(how) => Err(how),
        Acted::Done(after, word) => {
            let end = print(word, output, at);
            Ok((after, end))
        }
        Acted::Value(n) => {
            let end = render::output::returning(&value[0..n], output, at);
            Ok((l, end))
        }
    }
}

// Does the command that stands at the places c of the program's text, on the running session.
pub(crate) fn act(
    principals: &mut [u8],
    principal_slots: &mut [u32],
    vars: &mut [u8],
    variable_slots: &mut [u32],
    locals: &mut [u8],
    local_slots: &mut [u32],
    assertions: &mut [u64],
    value: &mut [u8],
    labels: &mut [u32],
    l: Layout,
    text: &[u8],
    c: Command,
) -> Acted
    requires some_running { SomeRunning l (slices principals.old principal_slots.old vars.old variable_slots.old locals.old local_slots.old assertions.old) }
    requires value_len { (length value.old ≡ 45056) × (length labels.old ≡ 4096) }
    requires some_command { SomeCommand text.now c × (length text.now ≤ longest) }
    ensures { (s : Session) (k : Syntax.Command) → Running s l (slices principals.old principal_slots.old vars.old variable_slots.old locals.old local_slots.old assertions.old) → command_meant text.now c ≡ some k
        → Acts result (step s k) s l (slices principals.new principal_slots.new vars.new variable_slots.new locals.new local_slots.new assertions.new) value.new }
{
    match c {
        Command::Administer(a) => {
            administration::act(
                principals,
                principal_slots,
                vars,
                variable_slots,
                locals,
                local_slots,
                assertions,
                labels,
                l,
                text,
                a,
            )
        }
        Command::Variable(v) => {
            variable_commands::act(
                principals,
                principal_slots,
                vars,
                variable_slots,
                locals,
                local_slots,
                assertions,
                value,
                labels,
                l,
                text,
                v,
            )
        }
    }
}
