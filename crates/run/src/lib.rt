// Runs a program on lent buffers. Like the other functions open to the host it asks nothing of its caller: a wrong call is answered with its
// number, and nothing lent is changed. Document 01, "Who gets which number".
#![tactic(auto)]

ghost use Rattle.std.specs.Prelude.{◌≡◌};
ghost use Rattle.language.specs.Calls.{run_call};
ghost use Rattle.answers.specs.Answers.{replied};

use answers::Answer;

// Runs a program on the state. The output gets its lines; the work buffer is room for it, and is zero afterwards.
pub fn program(state: &mut [u8], work: &mut [u8], output: &mut [u8], program: &[u8]) -> Answer
    ensures { replied result (record { state = state.exit.now; work = work.new; output = output.new })
        ≡ run_call (record { state = state.entry.now; work = work.old; output = output.old }) program.now }
{
    if output.len() != 65536 {
        return Answer::Wrong(1);
    }
    if state.len() != 65536 {
        return Answer::Wrong(2);
    }
    if work.len() != 65536 {
        return Answer::Wrong(3);
    }
    let mut principals = [0u32; 1024];
    let mut vars = [0u32; 4096];
    let mut assertions = [0u64; 2048];
    let checked = validate::check(state, &mut principals, &mut vars, &mut assertions);
    match checked {
        None => Answer::Wrong(4),
        Some(parts) => {
            if !parts.open {
                return Answer::Wrong(5);
            }
            transaction::start(
                state,
                work,
                output,
                program,
                &mut principals,
                &mut vars,
                &mut assertions,
                parts,
            )
        }
    }
}
