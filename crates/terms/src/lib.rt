// The operators of bit-vector terms. `Expr` in specs/ is built over them, and so is a pool's node.
#![tactic(auto)]

// The nine operators that keep the width of their operands: kinds 3 to 11.
#[derive(Clone, Copy)]
pub enum BinOp {
    Add,
    Sub,
    Mul,
    And,
    Or,
    Xor,
    Shl,
    LShr,
    AShr,
}

// The three comparisons, whose term is a condition: kinds 12 to 14.
#[derive(Clone, Copy)]
pub enum CmpOp {
    Eq,
    Ult,
    Slt,
}
