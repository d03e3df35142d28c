// Circuits of words: a number of w bits is a run of w literals in a lent slice, the lowest bit first.
#![tactic(auto)]

pub mod adder;
pub mod bitwise;
pub mod compare;
pub mod copies;
