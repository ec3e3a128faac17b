// The state's text of now: a plain first line, the former principals' lines with a count at the end of each, and the rest as it stands.
ghost use Rattle.std.specs.Prelude.{◌≡◌, ◌++◌, ◌+◌, ◌≤◌, length};
ghost use Rattle.language.specs.Encode.{padded};
ghost use Rattle.value_text.specs.Writing.{Written};
ghost use Rattle.bring.specs.Counts.{with_count, counted, brought_text, Bringing};

use state_lines::{put_header, zero_rest};
use validate::Parts;
use value_text::{copy_in, put_byte};

// One byte; where it ends a line, the count 0 before it.
fn put_one(out: &mut [u8], at: usize, b: u8) -> usize
    requires { at + 3 ≤ length out.old }
    ensures { Written out.old at (with_count b) result out.new }
{
    if b == 10 {
        return copy_in(out, at, b"\t0\n");
    }
    put_byte(out, at, b)
}

// Lines, each with the count 0 at its end.
fn put_counted(out: &mut [u8], at: usize, text: &[u8]) -> usize
    requires { at + length (counted text.now) + 2 ≤ length out.old }
    ensures { Written out.old at (counted text.now) result out.new }
{
    let mut p = at;
    for b in text {
        p = put_one(out, p, *b);
    }
    p
}

// The whole text of now, then zeros.
pub fn put_state(former: &[u8], parts: Parts, state: &mut [u8])
    requires { Bringing former.now parts (length state.old) }
    ensures { state.new ≡ padded (brought_text former.now parts) }
{
    let from = parts.principals_from;
    let to = parts.principals_to;
    let used = parts.used;
    let a = put_header(state, 0, parts.open);
    let b = put_counted(state, a, &former[from..to]);
    let c = copy_in(state, b, &former[to..used]);
    zero_rest(state, c);
}
