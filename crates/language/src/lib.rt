// The crate is its definitions (specs/) and the laws about them (proofs/): it has no code.
#![tactic(auto)]
