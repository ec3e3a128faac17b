// Everyone's shortest chain at once: the rounds of the search, gone through once for all principals.
#![tactic(auto)]

ghost use Rattle.std.specs.Prelude.{◌≡◌, map, ◌≤◌, ◌<◌, length};
ghost use Rattle.assertion.specs.Packed.{fields};
ghost use Rattle.chains.specs.Chain.{asked};
ghost use Rattle.chains.specs.Rounds.{Everyone, one_round, start, Whoever};
ghost use Rattle.search_steps.specs.Steps.{handed, Marks};

use assertion::Assertion;
use search_steps::{gather, mark, tables};

// Round d: everyone one assertion further than d. How many were reached.
fn round(list: &[Assertion], d: u16, dist: &mut [u16]) -> usize
    requires { d < 4096 }
    ensures { Marks dist.old (one_round d (map handed list.now) dist.old) dist.new result }
{
    let mut n = 0;
    for a in list {
        n += usize::from(mark(*a, d, dist));
    }
    n
}

// Rounds until one reaches nobody, or anyone is reached, who is a step from everybody.
fn rounds(list: &[Assertion], dist: &mut [u16])
    requires { (1 < length dist.old) × (length dist.old ≤ 4096) × (dist.old ≡ start (length dist.old)) }
    ensures { Whoever (map handed list.now) (length dist.old) (λ a. Everyone a dist.new) }
{
    let mut d: u16 = 0;
    loop {
        let n = round(list, d, dist);
        if n == 0 {
            return;
        }
        d += 1;
        if dist[1] == d {
            tables::reach_rest(dist, d + 1);
            return;
        }
    }
}

// Everyone's shortest chain, for a right on a variable: its length, or UNREACHED where there is none.
pub fn lengths(assertions: &[u64], variable: u16, right: u16, dist: &mut [u16])
    requires { (length assertions.now ≤ 2048) × (1 < length dist.old) × (length dist.old ≤ 4096) }
    ensures { Everyone (asked (map fields assertions.now) (length dist.old) variable right) dist.new }
{
    let mut list = [Assertion::default(); 2048];
    let n = gather(assertions, variable, right, &mut list);
    tables::start(dist);
    rounds(&list[..n], dist);
}
