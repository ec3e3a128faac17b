// Asks whether a principal has a right. Like the other functions open to the host it asks nothing of its caller: a wrong call is answered
// with its number. Document 01, "Who gets which number".
#![tactic(auto)]

mod question; // whether a principal has a right, on a state that was checked

ghost use Rattle.std.specs.Prelude.{◌≡◌};
ghost use Rattle.language.specs.Calls.{ask_call};
ghost use Rattle.answers.specs.Answers.{replied};

use answers::Answer;

// Whether a principal has a right on a shared variable, and by how long a chain. The right is given by its letter.
pub fn right(state: &[u8], name: &[u8], variable: &[u8], right: u8) -> Answer
    ensures { replied result state.now ≡ ask_call state.now name.now variable.now right }
{
    if state.len() != 65536 {
        return Answer::Wrong(2);
    }
    let mut principals = [0u32; 1024];
    let mut vars = [0u32; 4096];
    let mut assertions = [0u64; 2048];
    let checked = validate::check(state, &mut principals, &mut vars, &mut assertions);
    let Some(parts) = checked else {
        return Answer::Wrong(4);
    };
    question::decide(
        state,
        &principals,
        &vars,
        &assertions,
        parts,
        name,
        variable,
        right,
    )
}
