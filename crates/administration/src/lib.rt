// The commands about principals and what they delegate, and exit: each is done by its function, and has its status.
#![tactic(auto)]

ghost use Rattle.std.specs.Prelude.{◌≡◌, ◌≤◌, length};
ghost use Rattle.std.proofs.Math.Option.{some};
ghost use Rattle.language.specs.Text.{Text};
ghost use Rattle.language.specs.Programs.{longest};
ghost use Rattle.language.specs.Syntax as Syntax;
ghost use Rattle.language.specs.Values.{Session};
ghost use Rattle.language.specs.Commands.{step};
ghost use Rattle.command_readers.specs.declared.Command.TheVariants.{Administer};
ghost use Rattle.command_readers.specs.Commands.{administration_meant, SomeCommand};
ghost use Rattle.session.specs.Sessions.{Running, SomeRunning, slices};
ghost use Rattle.status.specs.Acts.{Acts};

use command_readers::Administration;
use session::Layout;
use status::{Acted, Status, done};

// Does the command that stands at the places c of the program's text, on the running session. It returns no value, and changes no variable.
pub fn act(
    principals: &mut [u8],
    principal_slots: &mut [u32],
    vars: &[u8],
    variable_slots: &[u32],
    locals: &[u8],
    local_slots: &[u32],
    assertions: &mut [u64],
    labels: &mut [u32],
    l: Layout,
    text: &[u8],
    c: Administration,
) -> Acted
    requires some_running { SomeRunning l (slices principals.old principal_slots.old vars.now variable_slots.now locals.now local_slots.now assertions.old) }
    requires labels_len { length labels.old ≡ 4096 }
    requires some_command { SomeCommand text.now (Administer c) × (length text.now ≤ longest) }
    ensures { (s : Session) (k : Syntax.Command) (value : Text) → Running s l (slices principals.old principal_slots.old vars.now variable_slots.now locals.now local_slots.now assertions.old) → administration_meant text.now c ≡ some k
        → Acts result (step s k) s l (slices principals.new principal_slots.new vars.now variable_slots.now locals.now local_slots.now assertions.new) value }
{
    match c {
        Administration::CreatePrincipal(p, w) => {
            let v = principals::create_principal(
                principals,
                principal_slots,
                vars,
                variable_slots,
                locals,
                local_slots,
                assertions,
                labels,
                l,
                text,
                p,
                w,
            );
            done(v, Status::CreatePrincipal)
        }
        Administration::ChangePassword(p, w) => {
            let v = passwords::change_password(
                principals,
                principal_slots,
                vars,
                variable_slots,
                locals,
                local_slots,
                assertions,
                l,
                text,
                p,
                w,
            );
            done(v, Status::ChangePassword)
        }
        Administration::SetDelegation(x, q, r, p) => {
            let v = delegations::set_delegation(
                principals,
                principal_slots,
                vars,
                variable_slots,
                locals,
                local_slots,
                assertions,
                labels,
                l,
                text,
                x,
                q,
                r,
                p,
            );
            done(v, Status::SetDelegation)
        }
        Administration::DeleteDelegation(x, q, r, p) => {
            let v = delegations::delete_delegation(
                principals,
                principal_slots,
                vars,
                variable_slots,
                locals,
                local_slots,
                assertions,
                labels,
                l,
                text,
                x,
                q,
                r,
                p,
            );
            done(v, Status::DeleteDelegation)
        }
        Administration::DefaultDelegator(p) => {
            let v = server_commands::default_delegator(
                principals,
                principal_slots,
                vars,
                variable_slots,
                locals,
                local_slots,
                assertions,
                l,
                text,
                p,
            );
            done(v, Status::DefaultDelegator)
        }
        Administration::Exit => {
            let v = server_commands::exit(
                principals,
                principal_slots,
                vars,
                variable_slots,
                locals,
                local_slots,
                assertions,
                l,
            );
            done(v, Status::Exiting)
        }
    }
}
