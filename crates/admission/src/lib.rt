// Who sends a program, or why it is refused before its first command. Document 01, "A run".
#![tactic(auto)]

ghost use Rattle.std.specs.Prelude.{List, ℕ};
ghost use Rattle.language.specs.State.{Store};
ghost use Rattle.validate.specs.Checked.{Represents};
ghost use Rattle.opening.specs.Logins.{SomeState};
ghost use Rattle.admission.specs.Admissions.{Admits};

use opening::log_in;
use refusal::Refusal;
use validate::Parts;

// The sender's number, and where the commands start.
#[derive(Clone, Copy)]
pub struct Sender {
    pub number: usize,
    pub at: usize,
}

// First the login is read, and then the name and the password are looked at. After a mistaken login, of a missing name as with another password,
// the commands are read as well: a text that is no program is FAILED, wherever that is found out.
pub fn admit(
    state: &[u8],
    principal_slots: &[u32],
    parts: Parts,
    program: &[u8],
) -> Result<Sender, Refusal>
    requires { SomeState state.now principal_slots.now parts }
    ensures { (variable_slots assertions : List ℕ) (s : Store) → Represents state.now principal_slots.now variable_slots assertions parts s
        → Admits result s program.now }
{
    let Some(head) = parser::login(program) else {
        return Err(Refusal::Failed);
    };
    let name = head.sender;
    let password = head.password;
    let login = log_in(
        state,
        principal_slots,
        parts,
        &program[name.start..name.end],
        &program[password.start..password.end],
    );
    match login {
        Some(number) => Ok(Sender {
            number,
            at: head.at,
        }),
        None => {
            if parser::body_at(program, head.at) {
                return Err(Refusal::Denied);
            }
            Err(Refusal::Failed)
        }
    }
}
