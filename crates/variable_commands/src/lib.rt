// The commands about variables, and return: each is done by its function, and has its status or its value.
#![tactic(auto)]

ghost use Rattle.std.specs.Prelude.{◌≡◌, ◌≤◌, length};
ghost use Rattle.std.proofs.Math.Option.{some};
ghost use Rattle.language.specs.Programs.{longest};
ghost use Rattle.language.specs.Syntax as Syntax;
ghost use Rattle.language.specs.Values.{Session};
ghost use Rattle.language.specs.Commands.{step};
ghost use Rattle.command_readers.specs.declared.Command.TheVariants.{Variable};
ghost use Rattle.command_readers.specs.Commands.{variable_meant, SomeCommand};
ghost use Rattle.session.specs.Sessions.{Running, SomeRunning, slices};
ghost use Rattle.status.specs.Acts.{Acts};

use command_readers::VariableCommand;
use session::Layout;
use status::{Acted, Status, done, given};

// Does the command that stands at the places c of the program's text, on the running session. A value that it returns is left in `value`. Principals stay as
// they are.
pub fn act(
    principals: &[u8],
    principal_slots: &[u32],
    vars: &mut [u8],
    variable_slots: &mut [u32],
    locals: &mut [u8],
    local_slots: &mut [u32],
    assertions: &mut [u64],
    value: &mut [u8],
    labels: &mut [u32],
    l: Layout,
    text: &[u8],
    c: VariableCommand,
) -> Acted
    requires some_running { SomeRunning l (slices principals.now principal_slots.now vars.old variable_slots.old locals.old local_slots.old assertions.old) }
    requires value_len { (length value.old ≡ 45056) × (length labels.old ≡ 4096) }
    requires some_command { SomeCommand text.now (Variable c) × (length text.now ≤ longest) }
    ensures { (s : Session) (k : Syntax.Command) → Running s l (slices principals.now principal_slots.now vars.old variable_slots.old locals.old local_slots.old assertions.old) → variable_meant text.now c ≡ some k
        → Acts result (step s k) s l (slices principals.now principal_slots.now vars.new variable_slots.new locals.new local_slots.new assertions.new) value.new }
{
    match c {
        VariableCommand::Set(x, e) => {
            let v = set_command::set(
                principals,
                principal_slots,
                vars,
                variable_slots,
                locals,
                local_slots,
                assertions,
                value,
                labels,
                l,
                text,
                x,
                e,
            );
            done(v, Status::Set)
        }
        VariableCommand::Append(x, e) => {
            let v = append_command::append(
                principals,
                principal_slots,
                vars,
                variable_slots,
                locals,
                local_slots,
                assertions,
                value,
                labels,
                l,
                text,
                x,
                e,
            );
            done(v, Status::Append)
        }
        VariableCommand::Local(x, e) => {
            let v = local_command::local(
                principals,
                principal_slots,
                vars,
                variable_slots,
                locals,
                local_slots,
                assertions,
                value,
                labels,
                l,
                text,
                x,
                e,
            );
            done(v, Status::Local)
        }
        VariableCommand::Foreach(y, x, e) => {
            let v = foreach::foreach(
                principals,
                principal_slots,
                vars,
                variable_slots,
                locals,
                local_slots,
                assertions,
                value,
                labels,
                l,
                text,
                y,
                x,
                e,
            );
            done(v, Status::Foreach)
        }
        VariableCommand::Filtereach(y, x, e) => {
            let v = filtereach::filtereach(
                principals,
                principal_slots,
                vars,
                variable_slots,
                locals,
                local_slots,
                assertions,
                value,
                labels,
                l,
                text,
                y,
                x,
                e,
            );
            done(v, Status::Filtereach)
        }
        VariableCommand::Return(e) => {
            let v = returning::value(
                principals,
                principal_slots,
                vars,
                variable_slots,
                locals,
                local_slots,
                assertions,
                value,
                labels,
                l,
                text,
                e,
            );
            given(v)
        }
    }
}
