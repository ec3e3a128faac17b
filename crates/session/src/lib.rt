// A running program: where the parts of its session stand, and how a command of it ends.
#![tactic(auto)]

// The principals, the shared variables and the locals are texts at the starts of lent buffers, each with a length and a number of records;
// the assertions are the first `asserted` of a list of numbers. The default delegator and the sender are numbers of principals. The weight
// is that of the state with its locals.
#[derive(Clone, Copy)]
pub struct Layout {
    pub principals_len: usize,
    pub principals: usize,
    pub vars_len: usize,
    pub vars: usize,
    pub locals_len: usize,
    pub locals: usize,
    pub asserted: usize,
    pub delegator: usize,
    pub sender: usize,
    pub weight: usize,
    pub is_open: bool,
}

// How a command ends: refused, or done with the session after it. A refusal ends the program and drops its session.
#[derive(Clone, Copy)]
pub enum Verdict {
    Denied,
    Failed,
    Full,
    Done(Layout),
}
