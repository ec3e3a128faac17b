// The check of a state's buffer and the look-ups in it, for programs in other languages. They ask nothing of their caller but what the
// types say: a buffer of another size than 65,536 bytes, and a room that is too small, are refused with a number.
#![tactic(auto)]

ghost use Rattle.language.specs.State.{Store};
ghost use Rattle.named_rights.specs.Numbers.{principals_of, variables};
ghost use Rattle.state_lookups.specs.Looks.{found, name_of, principal_of, variable_of};
ghost use Rattle.validate_c.specs.Reported.{Reported, CountTold, figures};

const BAD: u64 = 4294967296;

const REFUSED: u64 = 4294967297;

// Whether a buffer is well formed; its figures and its assertions in `out`.
#[unsafe(no_mangle)]
pub extern "C" fn state_check(state: &[u8], out: &mut [u64]) -> u64
    ensures { Reported 2054 (λ s. found 0 (figures s)) state.now out.old out.new result }
{
    if state.len() != 65536 {
        return REFUSED;
    }
    if out.len() < 2054 {
        return REFUSED;
    }
    let mut principals = [0u32; 1024];
    let mut vars = [0u32; 4096];
    let mut assertions = [0u64; 2048];
    let checked = validate::check(state, &mut principals, &mut vars, &mut assertions);
    match checked {
        Some(parts) => state_figures::figures(parts, &assertions, out),
        None => BAD,
    }
}

// A principal by name: its number, and its password in `out`.
#[unsafe(no_mangle)]
pub extern "C" fn state_principal(state: &[u8], name: &[u8], out: &mut [u8]) -> u64
    ensures { Reported 65536 (λ s. principal_of s.principals name.now) state.now out.old out.new result }
{
    if state.len() != 65536 {
        return REFUSED;
    }
    if out.len() < 65536 {
        return REFUSED;
    }
    let mut principals = [0u32; 1024];
    let mut vars = [0u32; 4096];
    let mut assertions = [0u64; 2048];
    let checked = validate::check(state, &mut principals, &mut vars, &mut assertions);
    match checked {
        Some(parts) => {
            let from = parts.principals_from;
            let to = parts.principals_to;
            state_lookups::principal(&state[from..to], &principals, parts.principals, name, out)
        }
        None => BAD,
    }
}

// A principal's count of completed programs, by name.
#[unsafe(no_mangle)]
pub extern "C" fn state_principal_count(state: &[u8], name: &[u8]) -> u64
    ensures { CountTold state.now name.now result }
{
    if state.len() != 65536 {
        return REFUSED;
    }
    let mut principals = [0u32; 1024];
    let mut vars = [0u32; 4096];
    let mut assertions = [0u64; 2048];
    let checked = validate::check(state, &mut principals, &mut vars, &mut assertions);
    match checked {
        Some(parts) => {
            let from = parts.principals_from;
            let to = parts.principals_to;
            state_lookups::count(&state[from..to], &principals, parts.principals, name)
        }
        None => BAD,
    }
}

// A variable by name: its number, and its value's text in `out`.
#[unsafe(no_mangle)]
pub extern "C" fn state_variable(state: &[u8], name: &[u8], out: &mut [u8]) -> u64
    ensures { Reported 65536 (λ s. variable_of s.variables name.now) state.now out.old out.new result }
{
    if state.len() != 65536 {
        return REFUSED;
    }
    if out.len() < 65536 {
        return REFUSED;
    }
    let mut principals = [0u32; 1024];
    let mut vars = [0u32; 4096];
    let mut assertions = [0u64; 2048];
    let checked = validate::check(state, &mut principals, &mut vars, &mut assertions);
    match checked {
        Some(parts) => {
            let from = parts.vars_from;
            let to = parts.vars_to;
            state_lookups::variable(&state[from..to], &vars, parts.vars, name, out)
        }
        None => BAD,
    }
}

// The name of the principal of a number, in `out`.
#[unsafe(no_mangle)]
pub extern "C" fn state_principal_name(state: &[u8], number: usize, out: &mut [u8]) -> u64
    ensures { Reported 65536 (λ s. name_of (principals_of s) number) state.now out.old out.new result }
{
    if state.len() != 65536 {
        return REFUSED;
    }
    if out.len() < 65536 {
        return REFUSED;
    }
    let mut principals = [0u32; 1024];
    let mut vars = [0u32; 4096];
    let mut assertions = [0u64; 2048];
    let checked = validate::check(state, &mut principals, &mut vars, &mut assertions);
    match checked {
        Some(parts) => {
            let from = parts.principals_from;
            let to = parts.principals_to;
            state_lookups::nth_name(&state[from..to], &principals, parts.principals, number, out)
        }
        None => BAD,
    }
}

// The name of the variable of a number, in `out`.
#[unsafe(no_mangle)]
pub extern "C" fn state_variable_name(state: &[u8], number: usize, out: &mut [u8]) -> u64
    ensures { Reported 65536 (λ s. name_of (variables s) number) state.now out.old out.new result }
{
    if state.len() != 65536 {
        return REFUSED;
    }
    if out.len() < 65536 {
        return REFUSED;
    }
    let mut principals = [0u32; 1024];
    let mut vars = [0u32; 4096];
    let mut assertions = [0u64; 2048];
    let checked = validate::check(state, &mut principals, &mut vars, &mut assertions);
    match checked {
        Some(parts) => {
            let from = parts.vars_from;
            let to = parts.vars_to;
            state_lookups::nth_name(&state[from..to], &vars, parts.vars, number, out)
        }
        None => BAD,
    }
}
