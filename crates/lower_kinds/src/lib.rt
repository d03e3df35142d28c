// The Rust's neon/lower/arith.rs and width.rs: what kinds and flags say there inside the lane functions, the operator or the range that
// they choose and the sources that they use.
#![tactic(auto)]

pub mod operators;
pub mod sources;
