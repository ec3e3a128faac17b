// What a chain of delegation is, over numbers alone (specs/Chain.antt), and what a search by rounds computes (specs/Rounds.antt), with the
// laws of both. The crate is these definitions and laws: it has no code.
#![tactic(auto)]
