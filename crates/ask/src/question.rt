// The question whether a principal has a right on a shared variable, on a state that was checked.
ghost use Rattle.std.specs.Prelude.{◌≡◌};
ghost use Rattle.language.specs.Calls.{right_byte, question};
ghost use Rattle.validate.specs.Checked.{Understood};
ghost use Rattle.answers.specs.Answers.{answer_meant, right_code};

use answers::Answer;
use assertion::{APPEND, DELEGATE, READ, WRITE};
use store::index::find;
use validate::Parts;

// A right's number by its letter, 4 for any other byte.
fn right_code(b: u8) -> u16
    ensures { result ≡ right_code (right_byte b) }
{
    match b {
        b'r' => READ,
        b'w' => WRITE,
        b'a' => APPEND,
        b'd' => DELEGATE,
        _ => 4,
    }
}

// First the principal is looked for, then the right and the variable, and then the shortest chain.
pub fn decide(
    state: &[u8],
    principals: &[u32],
    vars: &[u32],
    assertions: &[u64],
    parts: Parts,
    name: &[u8],
    variable: &[u8],
    right: u8,
) -> Answer
    requires { Understood state.now principals.now vars.now assertions.now parts }
    ensures { (u : Understood state.now principals.now vars.now assertions.now parts)
        → answer_meant result ≡ question u.state name.now variable.now (right_byte right) }
{
    let principals_from = parts.principals_from;
    let principals_to = parts.principals_to;
    let count = parts.principals;
    let principal = find(
        &state[principals_from..principals_to],
        principals,
        count,
        name,
    );
    let Some(asker) = principal else {
        return Answer::Wrong(6);
    };
    let code = right_code(right);
    if code == 4 {
        return Answer::Wrong(7);
    }
    let vars_from = parts.vars_from;
    let vars_to = parts.vars_to;
    let place = find(&state[vars_from..vars_to], vars, parts.vars, variable);
    let Some(shared) = place else {
        return Answer::Wrong(7);
    };
    let chain = named_rights::chain(
        assertions,
        parts.asserted,
        count,
        shared.number,
        code,
        asker.number,
    );
    match chain {
        Some(n) => Answer::Yes(n),
        None => Answer::No,
    }
}
