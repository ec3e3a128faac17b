// How far an evaluation has come.
use permits::Known;

// The place in the program's text, how many frames there are, where the locals end with the names of `let` behind them, how many they are,
// what the names of `let` weigh, and what is known of the terms from there on.
#[derive(Clone, Copy)]
pub struct Place {
    pub p: usize,
    pub depth: usize,
    pub len: usize,
    pub count: usize,
    pub bound: usize,
    pub known: Known,
}
