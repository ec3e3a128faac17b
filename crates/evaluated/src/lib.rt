// What the evaluation of a term answers. The value's text stands in the first `len` bytes that were lent for it. Missing: there is no
// value. Heavy: it weighs more than 8,192.
#![tactic(auto)]

#[derive(Clone, Copy)]
pub enum Evaluated {
    Value { len: usize, weight: usize },
    Missing,
    Heavy,
}

// What is answered for an expression to the sender of a program: that it may not be read; that it comes to no value, or to one that is too
// heavy; or the value, whose text stands in the first `len` bytes that were lent for it.
#[derive(Clone, Copy)]
pub enum Answered {
    Denied,
    Missing,
    Heavy,
    Value { len: usize, weight: usize },
}
