// The decimal digits of a number, as a count of programs or a price has them.
#![tactic(auto)]

ghost use Rattle.std.specs.Prelude.{ℕ, ◌+◌, ◌≤◌, length};
ghost use Rattle.language.specs.Text.{digits, decimal};
ghost use Rattle.value_text.specs.Writing.{Written};
ghost use Rattle.decimals.specs.Digits.{Digits, DigitsRoom};

use value_text::put_byte;

// The digits of n, the first of them not zero unless n is.
fn put_digits(out: &mut [u8], at: usize, n: u32) -> usize
    requires { DigitsRoom n at (length out.old) }
    ensures { (more : ℕ) → Digits more n → Written out.old at (digits more n) result out.new }
{
    if n < 10 {
        return put_byte(out, at, b'0' + n as u8);
    }
    let p = put_digits(out, at, n / 10);
    put_byte(out, p, b'0' + (n % 10) as u8)
}

pub fn put_decimal(out: &mut [u8], at: usize, n: u32) -> usize
    requires { at + length (decimal n) ≤ length out.old }
    ensures { Written out.old at (decimal n) result out.new }
{
    put_digits(out, at, n)
}
