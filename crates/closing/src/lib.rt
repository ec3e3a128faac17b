// The last bytes of a run: its result, zeros after the output's lines, and the work buffer zero. Document 01, "A run".
#![tactic(auto)]

ghost use Rattle.std.specs.Prelude.{◌≡◌, ◌≤◌, length, take};
ghost use Rattle.language.specs.Text.{when◌then◌else◌};
ghost use Rattle.language.specs.Run as Run;
ghost use Rattle.value_text.specs.Writing.{Written};
ghost use Rattle.refusal.specs.Refusals.{refusal_meant};
ghost use Rattle.answers.specs.Answers.{kind_meant};
ghost use Rattle.closing.specs.Closed.{Closed};

use answers::{Answer, Finish, Kind};
use refusal::Refusal;
use render::output::status;
use state_lines::zero_rest;

// The kind of end of a completed program: one that exits leaves a closed state.
pub fn end_kind(is_open: bool) -> Kind
    ensures { kind_meant result ≡ (when◌then◌else◌ {A = Run.Kind} is_open Run.returned Run.exited) }
{
    if is_open {
        return Kind::Returned;
    }
    Kind::Exited
}

// Zeros after the output's first bytes and in the whole work buffer.
pub fn close(work: &mut [u8], output: &mut [u8], kind: Kind, lines: usize, bytes: usize) -> Answer
    requires { (length work.old ≡ 65536) × (length output.old ≡ 65536) × (bytes ≤ 65536) }
    ensures { (e : Run.End) → kind_meant kind ≡ Run.kind_of e → lines ≡ Run.line_count (Run.output e) → bytes ≡ length (Run.output e)
        → take bytes output.old ≡ Run.output e → Closed result e work.new output.new }
{
    zero_rest(output, bytes);
    zero_rest(work, 0);
    Answer::Ended(Finish { kind, lines, bytes })
}

// The line of a refusal, from the output's start.
fn put_refusal(output: &mut [u8], how: Refusal) -> usize
    requires { length output.old ≡ 65536 }
    ensures { Written output.old 0 (Run.refusal_line (refusal_meant how)) result output.new }
{
    match how {
        Refusal::Denied => status(output, 0, b"DENIED"),
        Refusal::Failed => status(output, 0, b"FAILED"),
        Refusal::Full => status(output, 0, b"FULL"),
    }
}

// A refused program has one line; what it printed before is gone.
pub fn refuse(work: &mut [u8], output: &mut [u8], how: Refusal) -> Answer
    requires { (length work.old ≡ 65536) × (length output.old ≡ 65536) }
    ensures { Closed result (Run.refusal (refusal_meant how)) work.new output.new }
{
    let n = put_refusal(output, how);
    close(work, output, Kind::Refused(how), 1, n)
}
