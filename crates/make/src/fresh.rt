// The state of a server just made.
ghost use Rattle.std.specs.Prelude.{◌≡◌, ◌≤◌, length};
ghost use Rattle.language.specs.Identifiers.{is_string};
ghost use Rattle.language.specs.Calls.{made};

use state_lines::{put_delegator, put_header, zero_rest};
use text::Alphabet;
use value_text::copy_in;

// Whether every byte is of the string alphabet.
pub fn is_string(text: &[u8]) -> bool
    ensures { result ≡ is_string text.now }
{
    text::run_end(text, 0, Alphabet::Text) == text.len()
}

// The text of a fresh state with this password of admin's, then zeros.
pub fn put_fresh(state: &mut [u8], password: &[u8])
    requires { (length state.old ≡ 65536) × (length password.now ≤ 1024) }
    ensures { state.new ≡ made password.now }
{
    let a = put_header(state, 0, true);
    let b = copy_in(state, a, b"P\tadmin\t");
    let c = copy_in(state, b, password);
    let d = copy_in(state, c, b"\t0\nN\tanyone\t0\n");
    let e = put_delegator(state, d, b"anyone");
    zero_rest(state, e);
}
