// Circuits of words: the operations of SMT-LIB on numbers of w bits, each made of the circuits of gates_words.
#![tactic(auto)]

pub mod products;
pub mod shifts;
pub mod sums;
