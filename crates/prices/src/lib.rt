// The text of a price, request M-104: written, and read by writing it again.
#![tactic(auto)]

ghost use Rattle.std.specs.Prelude.{◌≡◌, ◌+◌, ◌*◌, ◌-◌, ◌≤◌, nat_abs, length};
ghost use Rattle.language.specs.Text.{when◌then◌else◌, ◌≟◌};
ghost use Rattle.language.specs.Bytes.{between};
ghost use Rattle.language.specs.Prices.{greatest, amount_text, price_text, digits_of, starts_minus, price};
ghost use Rattle.amounts.specs.Amounts.{amount_meant};
ghost use Rattle.value_text.specs.Writing.{Written};

use amounts::signed;
use decimals::put_decimal;
use value_text::put_byte;

// Digits, a point, two digits.
fn put_amount(out: &mut [u8], at: usize, n: u32) -> usize
    requires { (n ≤ greatest) × (at + 10 ≤ length out.old) }
    ensures { Written out.old at (amount_text n) result out.new }
{
    let a = put_decimal(out, at, n / 100);
    let b = put_byte(out, a, b'.');
    let c = put_byte(out, b, b'0' + (n / 10 % 10) as u8);
    put_byte(out, c, b'0' + (n % 10) as u8)
}

pub fn put_price(out: &mut [u8], at: usize, amount: i64) -> usize
    requires { (nat_abs amount ≤ greatest) × (at + 11 ≤ length out.old) }
    ensures { Written out.old at (price_text amount) result out.new }
{
    let n = signed::magnitude(amount);
    if signed::below_zero(amount) {
        let a = put_byte(out, at, b'-');
        return put_amount(out, a, n);
    }
    put_amount(out, at, n)
}

// A digit more, if the byte is one.
fn with_digit(n: u64, b: u8) -> u64
    requires { n ≤ 99999999999 }
    ensures { result ≡ (when between "0" "9" b then n * 10 + (b - 48) else n) }
{
    if b.is_ascii_digit() {
        n * 10 + u64::from(b - b'0')
    } else {
        n
    }
}

// The number that the digits of a text make, whatever else stands in it.
fn digits_of(text: &[u8]) -> u64
    requires { length text.now ≤ 11 }
    ensures { result ≡ digits_of text.now }
{
    let mut n = 0;
    for b in text {
        n = with_digit(n, *b);
    }
    n
}

fn starts_minus(text: &[u8]) -> bool
    ensures { result ≡ starts_minus text.now }
{
    text.starts_with(b"-")
}

// Whether a text is that of the amount.
fn is_text(text: &[u8], amount: i64) -> bool
    requires { nat_abs amount ≤ greatest }
    ensures { result ≡ (price_text amount ≟ text.now) }
{
    let mut again = [0u8; 11];
    let end = put_price(&mut again, 0, amount);
    text::same_bytes(&again[..end], text)
}

// The amount of a text. What was read without care counts only where it has this text: so minus zero and needless zeros are no prices.
pub fn price_in(text: &[u8]) -> Option<i64>
    ensures { amount_meant result ≡ price text.now }
{
    if 11 < text.len() {
        return None;
    }
    let n = digits_of(text);
    if 999999999 < n {
        return None;
    }
    let amount = signed::signed(starts_minus(text), n as u32);
    is_text(text, amount).then_some(amount)
}
