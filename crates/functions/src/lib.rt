// The functions on strings, requests M-100 and M-104: each writes the text of its result.
#![tactic(auto)]

ghost use Rattle.std.specs.Prelude.{◌≡◌, ◌++◌, map, ◌+◌, ◌≤◌, length, nat_abs};
ghost use Rattle.language.specs.State.{string};
ghost use Rattle.language.specs.Encode.{element_text, value_text};
ghost use Rattle.language.specs.Prices.{greatest, price_text};
ghost use Rattle.language.specs.Functions.{lower_byte, cut};
ghost use Rattle.value_text.specs.Writing.{Written};

fn lower_byte(b: u8) -> u8
    ensures { result ≡ lower_byte b }
{
    b.to_ascii_lowercase()
}

// Copies src to out, from `at` on, in small letters. Where it ends.
fn copy_lower(out: &mut [u8], at: usize, src: &[u8]) -> usize
    requires { at + length src.now ≤ length out.old }
    ensures { Written out.old at (map lower_byte src.now) result out.new }
{
    for (i, b) in src.iter().enumerate() {
        out[at + i] = lower_byte(*b);
    }
    at + src.len()
}

// tolower
pub fn put_lower(out: &mut [u8], text: &[u8]) -> usize
    requires { length text.now + 3 ≤ length out.old }
    ensures { Written out.old 0 (element_text (string (map lower_byte text.now))) result out.new }
{
    let a = value_text::copy_in(out, 0, b"S\t");
    let b = copy_lower(out, a, text);
    value_text::put_byte(out, b, b'\n')
}

// concat
pub fn put_joined(out: &mut [u8], first: &[u8], second: &[u8]) -> usize
    requires { length first.now + length second.now + 3 ≤ length out.old }
    ensures { Written out.old 0 (element_text (string (first.now ++ second.now))) result out.new }
{
    let a = value_text::copy_in(out, 0, b"S\t");
    let b = value_text::copy_in(out, a, first);
    let c = value_text::copy_in(out, b, second);
    value_text::put_byte(out, c, b'\n')
}

// add, sub, times and per, where the amount is the result
pub fn put_amount(out: &mut [u8], amount: i64) -> usize
    requires { (nat_abs amount ≤ greatest) × (14 ≤ length out.old) }
    ensures { Written out.old 0 (element_text (string (price_text amount))) result out.new }
{
    let a = value_text::copy_in(out, 0, b"S\t");
    let b = prices::put_price(out, a, amount);
    value_text::put_byte(out, b, b'\n')
}

// split, at the length n
pub fn put_cut(out: &mut [u8], text: &[u8], n: usize) -> usize
    requires { length text.now + 16 ≤ length out.old }
    ensures { Written out.old 0 (value_text (cut text.now n)) result out.new }
{
    let (first, second) = text.split_at(n.min(text.len()));
    let a = value_text::put_record(out, 0);
    let b = value_text::put_field(out, a, b"fst", first);
    value_text::put_field(out, b, b"snd", second)
}
