// The figures of a state whose parts are known, written in the lent room.
#![tactic(auto)]

ghost use Rattle.std.specs.Prelude.{◌≡◌, ◌++◌, ◌+◌, ◌≤◌, length, take, drop};
ghost use Rattle.splice.specs.Splices.{over};
ghost use Rattle.state_lookups.specs.Looks.{Says, found};
ghost use Rattle.state_figures.specs.Tallies.{flag, tally};

use validate::Parts;

fn bit(b: bool) -> u64
    ensures { result ≡ flag b }
{
    if b {
        return 1;
    }
    0
}

// The figures of a state whose parts are known, but for its assertions.
fn head(parts: Parts, out: &mut [u64])
    requires { 6 ≤ length out.old }
    ensures { out.new ≡ tally parts ++ drop 6 out.old }
{
    out[0] = bit(parts.open);
    out[1] = parts.weight as u64;
    out[2] = parts.principals as u64;
    out[3] = parts.delegator as u64;
    out[4] = parts.vars as u64;
    out[5] = parts.asserted as u64;
}

// All of them, and the assertions behind.
pub fn figures(parts: Parts, assertions: &[u64], out: &mut [u64]) -> u64
    requires { (parts.asserted ≤ length assertions.now) × (length assertions.now ≤ 2048) × (2054 ≤ length out.old) }
    ensures { Says (found 0 (tally parts ++ take parts.asserted assertions.now)) out.old out.new result }
{
    let n = parts.asserted;
    head(parts, out);
    splice::copy(out, 6, &assertions[0..n]);
    (6 + n) as u64
}
