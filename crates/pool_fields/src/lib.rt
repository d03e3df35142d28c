// A node's operands and data (document 01, "Pool"), read one by one.
#![tactic(auto)]

ghost use Rattle.std.specs.Prelude.{◌≡◌, ◌+◌, ◌*◌, ◌/◌, ◌<◌, length};
ghost use Rattle.pool.specs.Node.{word_at};
ghost use Rattle.pool_fields.specs.Fields.{op_a, op_b, op_c, left_of, right_of};

use pool::words::{Kind, kind_of};
use pool::{Bit, Node};

pub fn first(p: &[u64], n: Node) -> Node
    requires { 4 * n.0 + 3 < length p.now }
    ensures { result.0 ≡ op_a p.now n.0 }
{
    let at = 4 * n.0;
    Node((p[at + 1] % 65536) as usize)
}

pub fn second(p: &[u64], n: Node) -> Node
    requires { 4 * n.0 + 3 < length p.now }
    ensures { result.0 ≡ op_b p.now n.0 }
{
    let at = 4 * n.0;
    Node((p[at + 1] / 65536 % 65536) as usize)
}

pub fn third(p: &[u64], n: Node) -> Node
    requires { 4 * n.0 + 3 < length p.now }
    ensures { result.0 ≡ op_c p.now n.0 }
{
    let at = 4 * n.0;
    Node((p[at + 1] / 4294967296) as usize)
}

// All operands in one word: A + 2^16 × B + 2^32 × C.
pub fn operand_word(p: &[u64], n: Node) -> u64
    requires { 4 * n.0 + 3 < length p.now }
    ensures { result ≡ word_at p.now n.0 1 }
{
    let at = 4 * n.0;
    p[at + 1]
}

// B and, above it, C: everything above A.
pub fn second_and_third(p: &[u64], n: Node) -> u64
    requires { 4 * n.0 + 3 < length p.now }
    ensures { result ≡ word_at p.now n.0 1 / 65536 }
{
    let at = 4 * n.0;
    p[at + 1] / 65536
}

// The left one of the two operands with an operator or a comma between them in the text.
pub fn left(p: &[u64], n: Node) -> Node
    requires { 4 * n.0 + 3 < length p.now }
    ensures { result.0 ≡ left_of p.now n.0 }
{
    if kind_of(p, n) == Kind::ITE {
        second(p, n)
    } else {
        first(p, n)
    }
}

pub fn right(p: &[u64], n: Node) -> Node
    requires { 4 * n.0 + 3 < length p.now }
    ensures { result.0 ≡ right_of p.now n.0 }
{
    if kind_of(p, n) == Kind::ITE {
        third(p, n)
    } else {
        second(p, n)
    }
}

pub fn low(p: &[u64], n: Node) -> u64
    requires { 4 * n.0 + 3 < length p.now }
    ensures { result ≡ word_at p.now n.0 2 }
{
    let at = 4 * n.0;
    p[at + 2]
}

pub fn high(p: &[u64], n: Node) -> u64
    requires { 4 * n.0 + 3 < length p.now }
    ensures { result ≡ word_at p.now n.0 3 }
{
    let at = 4 * n.0;
    p[at + 3]
}

// The bits of an Extract, the highest and the lowest.
pub fn cut_hi(p: &[u64], n: Node) -> Bit
    requires { 4 * n.0 + 3 < length p.now }
    ensures { result.0 ≡ word_at p.now n.0 2 }
{
    let at = 4 * n.0;
    Bit(p[at + 2])
}

pub fn cut_lo(p: &[u64], n: Node) -> Bit
    requires { 4 * n.0 + 3 < length p.now }
    ensures { result.0 ≡ word_at p.now n.0 3 }
{
    let at = 4 * n.0;
    Bit(p[at + 3])
}
