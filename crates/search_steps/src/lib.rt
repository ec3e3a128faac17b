// The steps of the search for a shortest chain (`rights`): the assertions that it goes over, gathered once, and what a round does with one
// of them.
#![tactic(auto)]

ghost use Rattle.std.specs.Prelude.{◌≡◌, map, ◌≤◌, ◌<◌, length, take};
ghost use Rattle.std.specs.Int.{from_bool};
ghost use Rattle.assertion.specs.Packed.{fields};
ghost use Rattle.search_steps.specs.Steps.{delegations, handed, marked, Marks};

use assertion::Assertion;

pub mod tables; // what a marking of everyone begins and ends with

// The mark of a principal that no round has reached.
pub const UNREACHED: u16 = 65535;

// The assertions for a variable and a right, in order of entry, in what is lent for them: once for a search. How many.
pub fn gather(assertions: &[u64], variable: u16, right: u16, list: &mut [Assertion]) -> usize
    requires { length assertions.now ≤ length list.old }
    ensures few { result ≤ length assertions.now }
    ensures those { map handed (take result list.new) ≡ delegations variable right (map fields assertions.now) }
{
    let key = assertion::key(variable, right);
    let mut n = 0;
    for packed in assertions {
        if assertion::key_of(*packed) == key {
            list[n] = Assertion::from(*packed);
            n += 1;
        }
    }
    n
}

// One assertion's step in round d: whether it reaches somebody.
pub fn mark(a: Assertion, d: u16, dist: &mut [u16]) -> bool
    requires { d < 4096 }
    ensures { Marks dist.old (marked d a.from a.to dist.old) dist.new (from_bool result) }
{
    let q = a.from as usize;
    let p = a.to as usize;
    // Most assertions of a round stop at the second test, so that what asks for p comes after it.
    if dist.len() <= q || dist[q] != d {
        return false;
    }
    if dist.len() <= p || dist[p] != UNREACHED {
        return false;
    }
    dist[p] = d + 1;
    true
}
