// Whether a buffer is the text of a valid state, where its parts stand, and the tables that a run needs. Document 01, "State text".
#![tactic(auto)]

mod shared; // the variables
mod body; // all but the first line

ghost use Rattle.std.specs.Prelude.{◌≡◌, length};
ghost use Rattle.validate.specs.Checked.{CheckedMeant, FormerMeant};

use principal_lines::Form;

// Where the parts of a state's text stand: the principals, the variables, how many there are of each and of assertions; the number of the
// default delegator, the weight, and how many bytes the whole text has: from there on all are 0.
#[derive(Clone, Copy)]
pub struct Parts {
    pub open: bool,
    pub principals_from: usize,
    pub principals_to: usize,
    pub principals: usize,
    pub delegator: usize,
    pub vars_from: usize,
    pub vars_to: usize,
    pub vars: usize,
    pub asserted: usize,
    pub weight: usize,
    pub used: usize,
}

// Where the parts stand, of a valid state. The tables are written: the slots of the principals and of the variables, and the assertions that stand, as numbers.
pub fn check(
    state: &[u8],
    principals: &mut [u32],
    vars: &mut [u32],
    assertions: &mut [u64],
) -> Option<Parts>
    requires { (length state.now ≡ 65536) × (length principals.old ≡ 1024) × (length vars.old ≡ 4096) × (length assertions.old ≡ 2048) }
    ensures { CheckedMeant state.now principals.new vars.new assertions.new result }
{
    let (open, from) = frame::head_at(state)?;
    body::body_at(
        state,
        from,
        open,
        Form::Current,
        principals,
        vars,
        assertions,
    )
}

// The same for a text in the former lines. Its principals weigh less, so there may be more of them.
pub fn check_former(
    state: &[u8],
    principals: &mut [u32],
    vars: &mut [u32],
    assertions: &mut [u64],
) -> Option<Parts>
    requires { (length state.now ≡ 65536) × (length principals.old ≡ 4096) × (length vars.old ≡ 4096) × (length assertions.old ≡ 2048) }
    ensures { FormerMeant state.now principals.new vars.new assertions.new result }
{
    let (open, from) = frame::former_head_at(state)?;
    body::body_at(
        state,
        from,
        open,
        Form::Former,
        principals,
        vars,
        assertions,
    )
}
