// A64 words of the 67 operations: a record as a word, and a word as a record.
#![tactic(auto)]

pub mod decode;
pub mod encode;
