// Makes a server. Like the other functions open to the host it asks nothing of its caller: a wrong call is answered with its number, and
// nothing lent is changed. Document 01, "Who gets which number".
#![tactic(auto)]

mod fresh; // the state of a server just made

ghost use Rattle.std.specs.Prelude.{◌≡◌};
ghost use Rattle.language.specs.Calls.{make_call};
ghost use Rattle.answers.specs.Answers.{replied};

use answers::Answer;

// Makes a server: the first password is admin's.
pub fn server(state: &mut [u8], password: &[u8]) -> Answer
    ensures { replied result state.new ≡ make_call state.old password.now }
{
    if state.len() != 65536 {
        return Answer::Wrong(2);
    }
    if !fresh::is_string(password) {
        return Answer::Wrong(8);
    }
    if 1024 < password.len() {
        return Answer::Wrong(9);
    }
    fresh::put_fresh(state, password);
    Answer::Ready
}
