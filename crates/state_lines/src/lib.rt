// The lines of a state text, written from their parts, and the zeros after it.
#![tactic(auto)]

ghost use Rattle.std.specs.Prelude.{◌≡◌, [], ◌∷◌, ◌++◌, ◌+◌, ◌-◌, ◌≤◌, length, take, replicate};
ghost use Rattle.language.specs.Text.{bytes, when◌then◌else◌};
ghost use Rattle.language.specs.Encode.{head_text, delegator_text};
ghost use Rattle.value_text.specs.Writing.{Written};
ghost use Rattle.state_lines.specs.Lines.{assertion_line};

use value_text::{copy_in, put_byte};

fn open_letter(is_open: bool) -> u8
    ensures { result ∷ [] ≡ (when is_open then bytes "O" else bytes "C") }
{
    if is_open { b'O' } else { b'C' }
}

// The first line: open or closed.
pub fn put_header(out: &mut [u8], at: usize, is_open: bool) -> usize
    requires { at + 2 ≤ length out.old }
    ensures { Written out.old at (head_text is_open) result out.new }
{
    let a = put_byte(out, at, open_letter(is_open));
    put_byte(out, a, b'\n')
}

// A part of a line, and the byte that ends it.
fn put_part(out: &mut [u8], at: usize, part: &[u8], end: u8) -> usize
    requires { at + length part.now + 1 ≤ length out.old }
    ensures { Written out.old at (part.now ++ (end ∷ [])) result out.new }
{
    let a = copy_in(out, at, part);
    put_byte(out, a, end)
}

// The line of the default delegator.
pub fn put_delegator(out: &mut [u8], at: usize, name: &[u8]) -> usize
    requires { at + length name.now + 3 ≤ length out.old }
    ensures { Written out.old at (delegator_text name.now) result out.new }
{
    let a = copy_in(out, at, b"D\t");
    put_part(out, a, name, b'\n')
}

// The line of an assertion `variable from right -> to`, the right by its letter.
pub fn put_assertion(
    out: &mut [u8],
    at: usize,
    variable: &[u8],
    from: &[u8],
    right: u8,
    to: &[u8],
) -> usize
    requires { at + length variable.now + length from.now + length to.now + 7 ≤ length out.old }
    ensures { Written out.old at (assertion_line variable.now from.now right to.now) result out.new }
{
    let a = copy_in(out, at, b"A\t");
    let b = put_part(out, a, variable, b'\t');
    let c = put_part(out, b, from, b'\t');
    let d = put_byte(out, c, right);
    let e = put_byte(out, d, b'\t');
    put_part(out, e, to, b'\n')
}

// Zeros from `at` to the end.
pub fn zero_rest(out: &mut [u8], at: usize)
    requires { at ≤ length out.old }
    ensures { out.new ≡ take at out.old ++ replicate (length out.old - at) 0 }
{
    out[at..].fill(0);
}
