// The search of `rights` for programs in other languages. It asks nothing of its caller but what the types say: what the search does not
// take is refused with a number.
#![tactic(auto)]

ghost use Rattle.rights_c.specs.Reported.{Reported};

const NO: u64 = 4096;

const REFUSED: u64 = 4097;

// The length of the shortest chain to a principal, or the number for none; and the rounds begun for it. A question that is refused has a
// number too, and leaves the rounds as they were.
#[unsafe(no_mangle)]
pub extern "C" fn rights_shortest(
    assertions: &[u64],
    count: usize,
    variable: u16,
    right: u16,
    principal: usize,
    rounds: &mut u64,
) -> u64
    ensures { Reported assertions.now count variable right principal rounds.old result rounds.new }
{
    if 1024 < count {
        return REFUSED;
    }
    if 2048 < assertions.len() {
        return REFUSED;
    }
    let outcome = rights::shortest(assertions, count, variable, right, principal);
    *rounds = outcome.rounds as u64;
    match outcome.answer {
        Some(n) => n as u64,
        None => NO,
    }
}
