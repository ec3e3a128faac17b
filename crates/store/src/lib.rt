// The running state as text: named records one after the other, found by slots.
#![tactic(auto)]

pub mod index; // the hashes of names, and where a record stands
