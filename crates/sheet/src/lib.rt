// Prints the sheet of a shared variable: who may do what to it. Like the other functions open to the host it asks nothing of its caller: a
// wrong call is answered with its number, and nothing lent is changed. Document 02, M-102.
#![tactic(auto)]

mod listing; // the sheet, on a state that was checked

ghost use Rattle.std.specs.Prelude.{◌≡◌};
ghost use Rattle.language.specs.Calls.{sheet_call};
ghost use Rattle.answers.specs.Answers.{replied};

use answers::Answer;

// Prints a line for each principal into the output, then zeros. The state is only read.
pub fn variable(state: &[u8], output: &mut [u8], variable: &[u8]) -> Answer
    ensures { replied result (record { state = state.exit.now; output = output.new })
        ≡ sheet_call (record { state = state.entry.now; output = output.old }) variable.now }
{
    if output.len() != 65536 {
        return Answer::Wrong(1);
    }
    if state.len() != 65536 {
        return Answer::Wrong(2);
    }
    let mut principals = [0u32; 1024];
    let mut vars = [0u32; 4096];
    let mut assertions = [0u64; 2048];
    let checked = validate::check(state, &mut principals, &mut vars, &mut assertions);
    let Some(parts) = checked else {
        return Answer::Wrong(4);
    };
    listing::list(
        state,
        &principals,
        &vars,
        &assertions,
        parts,
        variable,
        output,
    )
}
