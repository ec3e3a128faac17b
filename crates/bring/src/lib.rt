// Brings a state over whose text is in the former lines. Like the other functions open to the host it asks nothing of its caller: a wrong
// call is answered with its number, and nothing lent is changed. Document 02, M-101.
#![tactic(auto)]

mod rewrite; // the state's text of now

ghost use Rattle.std.specs.Prelude.{◌≡◌};
ghost use Rattle.language.specs.Calls.{bring_call};
ghost use Rattle.answers.specs.Answers.{replied};

use answers::Answer;

// Brings the state of the former buffer over into the other. Every principal's count starts from 0, and weighs 10.
pub fn state(former: &[u8], state: &mut [u8]) -> Answer
    ensures { replied result (record { former = former.exit.now; state = state.new })
        ≡ bring_call (record { former = former.entry.now; state = state.old }) }
{
    if former.len() != 65536 {
        return Answer::Wrong(2);
    }
    if state.len() != 65536 {
        return Answer::Wrong(2);
    }
    let mut principals = [0u32; 4096];
    let mut vars = [0u32; 4096];
    let mut assertions = [0u64; 2048];
    let checked = validate::check_former(former, &mut principals, &mut vars, &mut assertions);
    let Some(parts) = checked else {
        return Answer::Wrong(10);
    };
    if parts.weight + 10 * parts.principals > 8192 {
        return Answer::Wrong(11);
    }
    rewrite::put_state(former, parts, state);
    Answer::Ready
}
