// What a marking of everyone begins and ends with: the marks of all principals.
ghost use Rattle.std.specs.Prelude.{◌≡◌, ◌<◌, length, replicate, set};
ghost use Rattle.search_steps.specs.Steps.{rest_reached, unreached};

use crate::UNREACHED;

// Only admin is reached.
pub fn start(dist: &mut [u16])
    requires { 0 < length dist.old }
    ensures { dist.new ≡ set (replicate (length dist.old) unreached) 0 0 }
{
    dist.fill(UNREACHED);
    dist[0] = 0;
}

// Everyone who is not reached gets the mark d.
pub fn reach_rest(dist: &mut [u16], d: u16)
    ensures { dist.new ≡ rest_reached d dist.old }
{
    for mark in dist.iter_mut() {
        if *mark == UNREACHED {
            *mark = d;
        }
    }
}
