// What the functions open to the host answer. Which number and values of document 01 each case says: specs/Answers.antt.
#![tactic(auto)]

use refusal::Refusal;

// How a program ended.
#[derive(Clone, Copy)]
pub enum Kind {
    Returned,
    Exited,
    Refused(Refusal),
}

// A program's result: the kind of end, and the lines and bytes of its output.
#[derive(Clone, Copy)]
pub struct Finish {
    pub kind: Kind,
    pub lines: usize,
    pub bytes: usize,
}

#[derive(Clone, Copy)]
pub enum Answer {
    // A wrong call, by its number.
    Wrong(u8),
    // A program was run.
    Ended(Finish),
    // The right is had, by a shortest chain of this length.
    Yes(usize),
    // It is not.
    No,
    // A server was made, or brought over.
    Ready,
    // A sheet was written.
    Listed { lines: usize, bytes: usize },
}
