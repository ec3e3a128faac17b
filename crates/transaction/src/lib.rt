// A program as a transaction on a state that was checked and is open: it works on a copy, and the state's bytes change only when it is
// completed. Document 01, "A run".
#![tactic(auto)]

ghost use Rattle.std.specs.Prelude.{◌≡◌, length};
ghost use Rattle.language.specs.Programs.{parse};
ghost use Rattle.language.specs.Run as Run;
ghost use Rattle.language.specs.Calls.{end_reply};
ghost use Rattle.validate.specs.Checked.{Understood};
ghost use Rattle.answers.specs.Answers.{replied};
ghost use Rattle.transaction.specs.Admitted.{Admitted};

use admission::admit;
use answers::Answer;
use closing::refuse;
use ending::settle;
use engine::perform;
use opening::begin;
use validate::Parts;

// A program whose login is right: its session works on copies of the state's texts, the variables in the work buffer.
fn session(
    state: &mut [u8],
    work: &mut [u8],
    output: &mut [u8],
    program: &[u8],
    principal_slots: &mut [u32],
    variable_slots: &mut [u32],
    assertions: &mut [u64],
    parts: Parts,
    sender: usize,
    at: usize,
) -> Answer
    requires admitted { Admitted state.old principal_slots.old variable_slots.old assertions.old parts program.now sender at }
    requires state_len { (length state.old ≡ 65536) × (length work.old ≡ 65536) × (length output.old ≡ 65536) }
    requires principal_slots_len { (length principal_slots.old ≡ 1024) × (length variable_slots.old ≡ 4096) × (length assertions.old ≡ 2048) }
    ensures { (a : Admitted state.entry.now principal_slots.old variable_slots.old assertions.old parts program.now sender at)
        → replied result (record { state = state.exit.now; work = work.new; output = output.new })
        ≡ end_reply (record { state = state.entry.now; work = work.old; output = output.old })
        (Run.run a.understood.state (parse program.now)) }
{
    let mut principals = [0u8; 11008];
    let mut locals = [0u8; 32768];
    let mut local_slots = [0u32; 4096];
    let start = begin(
        state,
        principal_slots,
        variable_slots,
        assertions,
        parts,
        sender,
        &mut principals,
        work,
        &locals,
        &local_slots,
    );
    let mut value = [0u8; 45056];
    let mut labels = [0u32; 4096];
    let performed = perform(
        &mut principals,
        principal_slots,
        work,
        variable_slots,
        &mut locals,
        &mut local_slots,
        assertions,
        &mut value,
        &mut labels,
        start,
        program,
        at,
        output,
    );
    settle(
        performed,
        &principals,
        principal_slots,
        work,
        variable_slots,
        &locals,
        &local_slots,
        assertions,
        state,
        output,
        parts.used,
    )
}

// First it is known who sends the program, and then its commands are read and done in turn.
pub fn start(
    state: &mut [u8],
    work: &mut [u8],
    output: &mut [u8],
    program: &[u8],
    principal_slots: &mut [u32],
    variable_slots: &mut [u32],
    assertions: &mut [u64],
    parts: Parts,
) -> Answer
    requires understood { Understood state.old principal_slots.old variable_slots.old assertions.old parts }
    requires state_len { (length state.old ≡ 65536) × (length work.old ≡ 65536) × (length output.old ≡ 65536) }
    requires principal_slots_len { (length principal_slots.old ≡ 1024) × (length variable_slots.old ≡ 4096) × (length assertions.old ≡ 2048) }
    ensures { (u : Understood state.entry.now principal_slots.old variable_slots.old assertions.old parts)
        → replied result (record { state = state.exit.now; work = work.new; output = output.new })
        ≡ end_reply (record { state = state.entry.now; work = work.old; output = output.old })
        (Run.run u.state (parse program.now)) }
{
    match admit(state, principal_slots, parts, program) {
        Ok(sender) => session(
            state,
            work,
            output,
            program,
            principal_slots,
            variable_slots,
            assertions,
            parts,
            sender.number,
            sender.at,
        ),
        Err(how) => refuse(work, output, how),
    }
}
