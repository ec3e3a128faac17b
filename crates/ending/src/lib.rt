// The end of a performed program: its result, and the state that it leaves. Document 01, "A run".
#![tactic(auto)]

ghost use Rattle.std.specs.Prelude.{◌≡◌, ◌-◌, ◌≤◌, length, drop, replicate};
ghost use Rattle.std.proofs.Math.Option.{Option};
ghost use Rattle.language.specs.Text.{Text};
ghost use Rattle.language.specs.Syntax.{Name};
ghost use Rattle.language.specs.Run as Run;
ghost use Rattle.language.specs.Calls.{state_after};
ghost use Rattle.session.specs.Sessions.{slices};
ghost use Rattle.closing.specs.Closed.{Closed};
ghost use Rattle.outcome.specs.Ends.{Ends};
ghost use Rattle.ending.specs.Endings.{SomeEnd, end_or};

use answers::Answer;
use closing::{close, end_kind, refuse};
use outcome::Performed;
use refusal::Refusal;
use saving::save;

// What a performed program leaves: a completed one its state, where it counts for its sender, and any other the state as it was. The variables of
// the session stand in the work buffer; from `used` on the state's buffer holds zeros.
pub fn settle(
    performed: Performed,
    principals: &[u8],
    principal_slots: &[u32],
    work: &mut [u8],
    variable_slots: &[u32],
    locals: &[u8],
    local_slots: &[u32],
    assertions: &[u64],
    state: &mut [u8],
    output: &mut [u8],
    used: usize,
) -> Answer
    requires some_end { SomeEnd performed (slices principals.now principal_slots.now work.old variable_slots.now locals.now local_slots.now assertions.now) output.old }
    requires work_len { (length work.old ≡ 65536) × (length state.old ≡ 65536) × (length output.old ≡ 65536) × (used ≤ 65536) × (drop used state.old ≡ replicate (65536 - used) 0) }
    ensures { (p : Name) (e : Option Run.End) (before : Text)
        → Ends performed p e (slices principals.now principal_slots.now work.old variable_slots.now locals.now local_slots.now assertions.now) before output.old
        → Closed result (end_or e) work.new output.new
        × (state.new ≡ state_after state.old (Run.tallied p (end_or e))) }
{
    match performed {
        Performed::Broken => refuse(work, output, Refusal::Failed),
        Performed::Refused(how) => refuse(work, output, how),
        Performed::Completed(l, n, lines) => {
            save(
                principals,
                principal_slots,
                work,
                variable_slots,
                locals,
                local_slots,
                assertions,
                l,
                state,
                used,
            );
            let kind = end_kind(l.is_open);
            close(work, output, kind, lines, n)
        }
    }
}
