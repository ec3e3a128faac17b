// The crate is its computed values (specs/).
#![tactic(auto)]
