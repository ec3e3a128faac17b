// What the answer for an expression leaves of a command that stores its value (set, append, local), and how such a command ends.
#![tactic(auto)]

ghost use Rattle.std.specs.Prelude.{◌≡◌};
ghost use Rattle.settlement.specs.Commands.{verdict_of, settlement};

use assignment::Assigned;
use evaluated::Answered;
use session::Verdict;

// What an answer for an expression leaves of a command: it is over, or there is a value to store.
#[derive(Clone, Copy)]
pub enum Settled {
    Over(Verdict),
    Value { len: usize, weight: usize },
}

// `fits` says whether the command can be done with any value: append wants a list, local a new name. Where it cannot, it is FAILED, also for
// a value that is too heavy; DENIED goes before.
pub fn settle(v: Answered, fits: bool) -> Settled
    ensures { result ≡ settlement v fits }
{
    match v {
        Answered::Denied => Settled::Over(Verdict::Denied),
        Answered::Missing => Settled::Over(Verdict::Failed),
        Answered::Heavy => {
            if fits {
                return Settled::Over(Verdict::Full);
            }
            Settled::Over(Verdict::Failed)
        }
        Answered::Value { len, weight } => {
            if fits {
                return Settled::Value { len, weight };
            }
            Settled::Over(Verdict::Failed)
        }
    }
}

// How a command ends that does the assignment.
pub fn verdict(a: Assigned) -> Verdict
    ensures { result ≡ verdict_of a }
{
    match a {
        Assigned::Full => Verdict::Full,
        Assigned::Done(l) => Verdict::Done(l),
    }
}
