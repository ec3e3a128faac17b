// The functions open to the host for programs in other languages, each answer as one number (crates/wire/specs/Wire.antt). They ask nothing
// of their caller but what the types say.
#![tactic(auto)]

ghost use Rattle.std.specs.Prelude.{◌≡◌};
ghost use Rattle.language.specs.Calls.{make_call, run_call, ask_call, bring_call, sheet_call};
ghost use Rattle.wire.specs.Wire.{wire};

// Makes a server in the state's buffer, with the first password.
#[unsafe(no_mangle)]
pub extern "C" fn kivzurg_make(state: &mut [u8], password: &[u8]) -> u64
    ensures { (result ≡ wire (make_call state.old password.now).answer)
        × (state.new ≡ (make_call state.old password.now).lent) }
{
    let a = make::server(state, password);
    wire::wire(a)
}

// Runs a program. The output gets its lines; the work buffer is zero afterwards.
#[unsafe(no_mangle)]
pub extern "C" fn kivzurg_run(
    state: &mut [u8],
    work: &mut [u8],
    output: &mut [u8],
    program: &[u8],
) -> u64
    ensures { (result ≡ wire (run_call (record { state = state.old; work = work.old; output = output.old }) program.now).answer)
        × (record { state = state.new; work = work.new; output = output.new }
        ≡ (run_call (record { state = state.old; work = work.old; output = output.old }) program.now).lent) }
{
    let a = run::program(state, work, output, program);
    wire::wire(a)
}

// Whether a principal has a right, given by its letter, on a shared variable.
#[unsafe(no_mangle)]
pub extern "C" fn kivzurg_ask(state: &[u8], name: &[u8], variable: &[u8], right: u8) -> u64
    ensures { (result ≡ wire (ask_call state.now name.now variable.now right).answer)
        × (state.now ≡ (ask_call state.now name.now variable.now right).lent) }
{
    let a = ask::right(state, name, variable, right);
    wire::wire(a)
}

// Brings a state whose text is in the former lines over into the state's buffer.
#[unsafe(no_mangle)]
pub extern "C" fn kivzurg_bring(former: &[u8], state: &mut [u8]) -> u64
    ensures { (result ≡ wire (bring_call (record { former = former.now; state = state.old })).answer)
        × (record { former = former.now; state = state.new } ≡ (bring_call (record { former = former.now; state = state.old })).lent) }
{
    let a = bring::state(former, state);
    wire::wire(a)
}

// Prints the sheet of a shared variable into the output: who may do what to it.
#[unsafe(no_mangle)]
pub extern "C" fn kivzurg_sheet(state: &[u8], output: &mut [u8], variable: &[u8]) -> u64
    ensures { (result ≡ wire (sheet_call (record { state = state.now; output = output.old }) variable.now).answer)
        × (record { state = state.now; output = output.new } ≡ (sheet_call (record { state = state.now; output = output.old }) variable.now).lent) }
{
    let a = sheet::variable(state, output, variable);
    wire::wire(a)
}
