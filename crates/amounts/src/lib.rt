// Signed arithmetic on whole hundredths, request M-104: what a text or an operation comes to is an amount in hundredths, or none.
#![tactic(auto)]

ghost use Rattle.std.specs.Prelude.{◌≡◌, ◌≤◌, nat_abs};
ghost use Rattle.language.specs.Syntax as Syntax;
ghost use Rattle.language.specs.Prices as Prices;
ghost use Rattle.amounts.specs.Amounts.{amount_meant};

mod rounding; // the rounded quotient
pub mod signed; // sign and distance from zero

use rounding::rounded;

// 9999999.99
const GREATEST: i64 = 999999999;

// The amount, where it is one: at most the greatest, either way.
fn ranged(a: i64) -> Option<i64>
    ensures { amount_meant result ≡ Prices.ranged a }
{
    if !(-GREATEST..=GREATEST).contains(&a) {
        return None;
    }
    Some(a)
}

pub fn add(a: i64, b: i64) -> Option<i64>
    requires { (nat_abs a ≤ 999999999) × (nat_abs b ≤ 999999999) }
    ensures { amount_meant result ≡ Prices.reckoned Syntax.add a b }
{
    ranged(a + b)
}

pub fn sub(a: i64, b: i64) -> Option<i64>
    requires { (nat_abs a ≤ 999999999) × (nat_abs b ≤ 999999999) }
    ensures { amount_meant result ≡ Prices.reckoned Syntax.sub a b }
{
    ranged(a - b)
}

// A product of hundredths is one of ten-thousandths: rounded first, then held against the range.
pub fn times(a: i64, b: i64) -> Option<i64>
    requires { (nat_abs a ≤ 999999999) × (nat_abs b ≤ 999999999) }
    ensures { amount_meant result ≡ Prices.reckoned Syntax.times a b }
{
    ranged(rounded(a * b, 100))
}

// A quotient of hundredths is one of wholes: a hundred times it is rounded. By zero there is none, zero's own too.
pub fn per(a: i64, b: i64) -> Option<i64>
    requires { (nat_abs a ≤ 999999999) × (nat_abs b ≤ 999999999) }
    ensures { amount_meant result ≡ Prices.reckoned Syntax.per a b }
{
    if b == 0 {
        return None;
    }
    ranged(rounded(a * 100, b))
}
