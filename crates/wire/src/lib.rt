// An answer to the host as one number, for programs in other languages (specs/Wire.antt).
#![tactic(auto)]

ghost use Rattle.std.specs.Prelude.{◌≡◌, ◌<◌};
ghost use Rattle.answers.specs.Answers.{kind_meant, answer_meant};
ghost use Rattle.wire.specs.Wire.{coded, end_code, wire, Fits};

use answers::{Answer, Kind};
use refusal::Refusal;

// A code in the upper bits, and two numbers of 24 bits.
fn coded(code: u64, lines: usize, low: usize) -> u64
    requires { (code < 256) × (lines < 16777216) × (low < 16777216) }
    ensures { result ≡ coded code lines low }
{
    code * 281474976710656 + lines as u64 * 16777216 + low as u64
}

fn end_code(kind: Kind) -> u64
    ensures { (result ≡ end_code (kind_meant kind)) × (result < 256) }
{
    match kind {
        Kind::Returned => 16,
        Kind::Exited => 17,
        Kind::Refused(how) => match how {
            Refusal::Denied => 18,
            Refusal::Failed => 19,
            Refusal::Full => 20,
        },
    }
}

// An answer's number.
pub fn wire(a: Answer) -> u64
    requires { Fits (answer_meant a) }
    ensures { result ≡ wire (answer_meant a) }
{
    match a {
        Answer::Wrong(n) => coded(n as u64, 0, 0),
        Answer::Ended(f) => {
            let kind = f.kind;
            let code = end_code(kind);
            coded(code, f.lines, f.bytes)
        }
        Answer::Yes(n) => coded(32, 0, n),
        Answer::No => coded(33, 0, 0),
        Answer::Ready => coded(48, 0, 0),
        Answer::Listed { lines, bytes } => coded(64, lines, bytes),
    }
}
