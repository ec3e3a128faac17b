// A quotient of whole hundredths, rounded.
ghost use Rattle.std.specs.Prelude.{◌≡◌, ◌<◌, ◌≤◌, nat_abs};
ghost use Rattle.language.specs.Prices as Prices;

use crate::signed::below_zero;

// top / bottom to the nearest whole; a half goes away from zero. The quotient was cut toward zero, so one more is one further from zero on the
// side that the signs of top and bottom say.
// 4611686018427387904 is the 62nd power of two: below it lies the product of two amounts.
pub(crate) fn rounded(top: i64, bottom: i64) -> i64
    requires { (nat_abs top < 4611686018427387904) × (0 < nat_abs bottom) × (nat_abs bottom ≤ 999999999) }
    ensures { result ≡ Prices.rounded top bottom }
{
    let q = top / bottom;
    let left = (top % bottom).unsigned_abs();
    if 2 * left < bottom.unsigned_abs() {
        return q;
    }
    if below_zero(top) == below_zero(bottom) {
        q + 1
    } else {
        q - 1
    }
}
