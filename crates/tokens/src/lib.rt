// Program text: from its bytes to tokens, and a scanner that reads them one by one. Every answer holds places in the text, and no copy of it.
#![tactic(auto)]

pub mod scanner;
pub mod token;
