// Word 0 of a node: its kind, its width and the set of the registers beneath it (document 01, "Pool"; document 02, S-4). The libraries read
// it and make it here only. So do they make word 1, a node's operands; pool_fields reads it.
ghost use Rattle.std.specs.Prelude.{◌≡◌, ◌+◌, ◌*◌, ◌<◌, ◌^◌, length, get_or};
ghost use Rattle.pool.specs.Node.{kind_word, operand_word, kind_number, width_at, set_at};

use crate::Node;

// The numbers of the kinds of node, in document 01's order: Var and Const have no operand, Add to AShr are of vectors, Eq to Slt conditions.
#[derive(Clone, Copy)]
pub struct Kind(pub u64);

impl Kind {
    pub const VAR: u64 = 1;

    pub const CONST: u64 = 2;

    pub const ADD: u64 = 3;

    pub const SUB: u64 = 4;

    pub const MUL: u64 = 5;

    pub const AND: u64 = 6;

    pub const OR: u64 = 7;

    pub const XOR: u64 = 8;

    pub const SHL: u64 = 9;

    pub const LSHR: u64 = 10;

    pub const ASHR: u64 = 11;

    pub const EQ: u64 = 12;

    pub const ULT: u64 = 13;

    pub const SLT: u64 = 14;

    pub const ITE: u64 = 15;

    pub const EXTRACT: u64 = 16;

    pub const CONCAT: u64 = 17;

    pub const ZERO_EXTEND: u64 = 18;

    pub const SIGN_EXTEND: u64 = 19;
}

pub fn kind_word(kind: u64, width: u64, set: u64) -> u64
    requires { (kind < 65536) × (width < 65536) × (set < 2 ^ 32) }
    ensures { result ≡ kind_word kind width set }
{
    kind + 65536 * width + 4294967296 * set
}

// Word 1, of up to three operands; node 0 stands for one that the kind has not.
pub fn operands_word(a: Node, b: Node, c: Node) -> u64
    requires { (a.0 < 65536) × (b.0 < 65536) × (c.0 < 65536) }
    ensures { result ≡ operand_word a.0 b.0 c.0 }
{
    (a.0 as u64) + 65536 * (b.0 as u64) + 4294967296 * (c.0 as u64)
}

// Word 0 as it is, of a node that is copied or compared whole.
pub fn kind_word_at(p: &[u64], n: Node) -> u64
    requires { 4 * n.0 + 3 < length p.now }
    ensures { result ≡ get_or p.now (4 * n.0) 0 }
{
    let at = 4 * n.0;
    p[at]
}

pub fn kind_of(p: &[u64], n: Node) -> u64
    requires { 4 * n.0 + 3 < length p.now }
    ensures { result ≡ kind_number p.now n.0 }
{
    let at = 4 * n.0;
    p[at] % 65536
}

pub fn width_of(p: &[u64], n: Node) -> u64
    requires { 4 * n.0 + 3 < length p.now }
    ensures { (result ≡ width_at p.now n.0) × (result < 65536) }
{
    let at = 4 * n.0;
    p[at] / 65536 % 65536
}

// The registers beneath a node, bit r for register r.
pub fn set_of(p: &[u64], n: Node) -> u64
    requires { 4 * n.0 + 3 < length p.now }
    ensures { (result ≡ set_at p.now n.0) × (result < 2 ^ 32) }
{
    let at = 4 * n.0;
    p[at] / 4294967296
}
