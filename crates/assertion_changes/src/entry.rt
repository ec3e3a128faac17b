// One assertion, entered in a running session or withdrawn.
ghost use Rattle.std.specs.Prelude.{◌≡◌, [], ◌∷◌};
ghost use Rattle.language.specs.State.{Assertion};
ghost use Rattle.language.specs.Values.{Session};
ghost use Rattle.session.specs.Sessions.{Slices, Running};
ghost use Rattle.assertion_changes.specs.Entering.{Asserts, SomeAsserts, Ends, entered, withdrawn, relaid, restood};

use crate::Entered;
use session::Layout;

// The layout with other assertions.
fn with_assertions(l: Layout, asserted: usize, weight: usize) -> Layout
    ensures { result ≡ relaid l asserted weight }
{
    Layout {
        principals_len: l.principals_len,
        principals: l.principals,
        vars_len: l.vars_len,
        vars: l.vars,
        locals_len: l.locals_len,
        locals: l.locals,
        asserted,
        delegator: l.delegator,
        sender: l.sender,
        weight,
        is_open: l.is_open,
    }
}

// Enters the assertion of a number, unless it stands.
pub fn enter_one(assertions: &mut [u64], l: Layout, number: u64, weight: usize) -> Entered
    requires { SomeAsserts l assertions.old number weight }
    ensures { (s : Session) (b : Slices) (a : Assertion) → Asserts s l b assertions.old a number weight
        → Ends result (entered s (a ∷ [])) (restood b assertions.new) }
{
    let asserted = l.asserted;
    if assertion_list::stands(assertions, asserted, number) {
        return Entered::Done(l);
    }
    let after = l.weight + weight;
    if 8192 < after {
        return Entered::Full;
    }
    let n = assertion_list::enter(assertions, asserted, number);
    Entered::Done(with_assertions(l, n, after))
}

// Withdraws the assertion of a number, if it stands.
pub fn withdraw_one(assertions: &mut [u64], l: Layout, number: u64, weight: usize) -> Layout
    requires { SomeAsserts l assertions.old number weight }
    ensures { (s : Session) (b : Slices) (a : Assertion) → Asserts s l b assertions.old a number weight
        → Running (withdrawn s (a ∷ [])) result (restood b assertions.new) }
{
    let asserted = l.asserted;
    if assertion_list::stands(assertions, asserted, number) {
        let n = assertion_list::withdraw(assertions, asserted, number);
        return with_assertions(l, n, l.weight - weight);
    }
    l
}
