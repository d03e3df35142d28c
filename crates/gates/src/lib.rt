// And-inverter graphs: the gates that the bits of terms are made of. specs/ has what a literal means.
#![tactic(auto)]

// A literal of a graph: twice a variable's number, plus 1 if it is inverted.
#[derive(Clone, Copy)]
pub struct Literal(pub u64);

impl Literal {
    pub const FALSE: u64 = 0;

    pub const TRUE: u64 = 1;
    // the variables before the first gate: the constant, and 128 bits of 32 registers
    pub const INPUTS: u64 = 4097;
}
