// Text written from values: the lines that a program prints.
#![tactic(auto)]

pub mod output;
