// One assertion of a running session, entered or withdrawn.
#![tactic(auto)]

pub mod entry; // the changes
pub mod weigh; // what an assertion weighs, and its number

use session::Layout;

// The session after assertions were entered, or none where it would be too heavy.
#[derive(Clone, Copy)]
pub enum Entered {
    Full,
    Done(Layout),
}
