// A constructor for each kind of node, which appends one to a pool.
#![tactic(auto)]

ghost use Rattle.std.specs.Prelude.{◌≡◌, ◌+◌, ◌*◌, ◌≤◌, ◌<◌, ◌%◌, ◌^◌, length};
ghost use Rattle.pool.specs.Node.{width_at, bv_code, compare_code};
ghost use Rattle.pool.specs.Growth.{Room};
ghost use Rattle.pool_nodes.specs.Builders.{union_at, MadeVar, MadeConst, MadeBv, MadeCompare, MadeIte, MadeExtract, MadeConcat, MadeZeroExtend, MadeSignExtend};

use pool::words::{Kind, kind_word, operands_word, set_of, width_of};
use pool::{Bit, Built, Node, push};
use terms::{BinOp, CmpOp};

// The width in bits of a node, 0 for a condition. That of a valid node is below 256.
fn width(pool: &[u64], a: Node) -> u64
    requires { 4 * a.0 + 3 < length pool.now }
    ensures { (result ≡ width_at pool.now a.0 % 256) × (result < 256) }
{
    width_of(pool, a) % 256
}

// The registers beneath either of two nodes.
fn union(pool: &[u64], a: Node, b: Node) -> u64
    requires { (4 * a.0 + 3 < length pool.now) × (4 * b.0 + 3 < length pool.now) }
    ensures { (result ≡ union_at pool.now a.0 b.0) × (result < 2 ^ 32) }
{
    set_of(pool, a) | set_of(pool, b)
}

// A register: one of the first 32 nodes.
pub fn var(pool: &mut [u64], count: usize, register: u64) -> Built
    requires room { Room pool.old count 1 }
    requires count_bound { (count < 32) × (register < 32) }
    ensures { MadeVar pool.old count pool.new result register }
{
    push(
        pool,
        count,
        kind_word(Kind::VAR, 128, 1u64 << register),
        0,
        register,
        0,
    )
}

// A constant of two words.
pub fn konst(pool: &mut [u64], count: usize, lo: u64, hi: u64, bits: u64) -> Built
    requires room { Room pool.old count 1 }
    requires bits_bound { bits ≤ 129 }
    ensures { MadeConst pool.old count pool.new result lo hi bits }
{
    push(pool, count, kind_word(Kind::CONST, bits, 0), 0, lo, hi)
}

fn bv_code(op: BinOp) -> u64
    ensures { (result ≡ bv_code op) × (result < 65536) }
{
    match op {
        BinOp::Add => Kind::ADD,
        BinOp::Sub => Kind::SUB,
        BinOp::Mul => Kind::MUL,
        BinOp::And => Kind::AND,
        BinOp::Or => Kind::OR,
        BinOp::Xor => Kind::XOR,
        BinOp::Shl => Kind::SHL,
        BinOp::LShr => Kind::LSHR,
        BinOp::AShr => Kind::ASHR,
    }
}

fn compare_code(op: CmpOp) -> u64
    ensures { (result ≡ compare_code op) × (result < 65536) }
{
    match op {
        CmpOp::Eq => Kind::EQ,
        CmpOp::Ult => Kind::ULT,
        CmpOp::Slt => Kind::SLT,
    }
}

// The term `op(a, b)`.
pub fn bv(pool: &mut [u64], count: usize, op: BinOp, a: Node, b: Node) -> Built
    requires room { Room pool.old count 1 }
    requires a_lt_count { (a.0 < count) × (b.0 < count) }
    ensures { MadeBv pool.old count pool.new result op a b }
{
    let w0 = kind_word(bv_code(op), width(pool, a), union(pool, a, b));
    push(pool, count, w0, operands_word(a, b, Node(0)), 0, 0)
}

// The condition `op(a, b)`.
pub fn compare(pool: &mut [u64], count: usize, op: CmpOp, a: Node, b: Node) -> Built
    requires room { Room pool.old count 1 }
    requires a_lt_count { (a.0 < count) × (b.0 < count) }
    ensures { MadeCompare pool.old count pool.new result op a b }
{
    let w0 = kind_word(compare_code(op), 0, union(pool, a, b));
    push(pool, count, w0, operands_word(a, b, Node(0)), 0, 0)
}

pub fn ite(pool: &mut [u64], count: usize, cond: Node, then_expr: Node, else_expr: Node) -> Built
    requires room { Room pool.old count 1 }
    requires cond_lt_count { (cond.0 < count) × (then_expr.0 < count) × (else_expr.0 < count) }
    ensures { MadeIte pool.old count pool.new result cond then_expr else_expr }
{
    let set = union(pool, cond, then_expr) | set_of(pool, else_expr);
    let w0 = kind_word(Kind::ITE, width(pool, then_expr), set);
    push(
        pool,
        count,
        w0,
        operands_word(cond, then_expr, else_expr),
        0,
        0,
    )
}

// The bits hi to lo.
pub fn extract(pool: &mut [u64], count: usize, src: Node, hi: Bit, lo: Bit) -> Built
    requires room { Room pool.old count 1 }
    requires src_lt_count { (src.0 < count) × (lo.0 ≤ hi.0) × (hi.0 < 129) }
    ensures { MadeExtract pool.old count pool.new result src hi.0 lo.0 }
{
    let w0 = kind_word(Kind::EXTRACT, hi.0 - lo.0 + 1, set_of(pool, src));
    push(
        pool,
        count,
        w0,
        operands_word(src, Node(0), Node(0)),
        hi.0,
        lo.0,
    )
}

pub fn concat(pool: &mut [u64], count: usize, high: Node, low: Node) -> Built
    requires room { Room pool.old count 1 }
    requires high_lt_count { (high.0 < count) × (low.0 < count) }
    ensures { MadeConcat pool.old count pool.new result high low }
{
    let bits = width(pool, high) + width(pool, low);
    let w0 = kind_word(Kind::CONCAT, bits, union(pool, high, low));
    push(pool, count, w0, operands_word(high, low, Node(0)), 0, 0)
}

pub fn zero_ext(pool: &mut [u64], count: usize, src: Node, to_bits: u64) -> Built
    requires room { Room pool.old count 1 }
    requires src_lt_count { (src.0 < count) × (to_bits ≤ 129) }
    ensures { MadeZeroExtend pool.old count pool.new result src to_bits }
{
    let w0 = kind_word(Kind::ZERO_EXTEND, to_bits, set_of(pool, src));
    push(pool, count, w0, operands_word(src, Node(0), Node(0)), 0, 0)
}

pub fn sign_ext(pool: &mut [u64], count: usize, src: Node, to_bits: u64) -> Built
    requires room { Room pool.old count 1 }
    requires src_lt_count { (src.0 < count) × (to_bits ≤ 129) }
    ensures { MadeSignExtend pool.old count pool.new result src to_bits }
{
    let w0 = kind_word(Kind::SIGN_EXTEND, to_bits, set_of(pool, src));
    push(pool, count, w0, operands_word(src, Node(0), Node(0)), 0, 0)
}
