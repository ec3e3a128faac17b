// The order of amounts, the sign of one and its distance from zero, for whoever compares or writes them.
ghost use Rattle.std.specs.Prelude.{◌≡◌, not, ◌≤◌, nat_abs};
ghost use Rattle.std.specs.Int.Signed.{non_neg, lt_z};
ghost use Rattle.language.specs.Prices as Prices;

// The order of amounts.
pub fn less(a: i64, b: i64) -> bool
    ensures { result ≡ lt_z a b }
{
    a < b
}

pub fn below_zero(x: i64) -> bool
    ensures { result ≡ not (non_neg x) }
{
    x < 0
}

// How far an amount lies from zero.
pub fn magnitude(a: i64) -> u32
    requires { nat_abs a ≤ 999999999 }
    ensures { result ≡ nat_abs a }
{
    a.unsigned_abs() as u32
}

// The amount that lies so far from zero, on the side that the sign says.
pub fn signed(minus: bool, n: u32) -> i64
    requires { n ≤ 999999999 }
    ensures { result ≡ Prices.signed minus n }
{
    if minus { -i64::from(n) } else { i64::from(n) }
}
