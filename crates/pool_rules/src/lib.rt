// The rules of a node by its kind (document 01, "Pool"), each with the rule of its set (document 02, S-4). A test of a valid node never
// fails, so the processor foresees each; kinds of two operands have one function, in which nothing branches by kind.
// The Rust has no counterpart: its terms are boxes, and cannot be damaged.
#![tactic(auto)]

ghost use Rattle.std.specs.Prelude.{◌≡◌, ◌+◌, ◌*◌, ◌≤◌, ◌<◌, ◌^◌, ltb, length};
ghost use Rattle.pool.specs.Node.{Kind, kind_at, none};
ghost use Rattle.pool_rules.specs.Rule.{ok_as, width_over};

use pool::Node;
use pool::words::{set_of, width_of};
use pool_fields::{
    cut_hi, cut_lo, first, high, low, operand_word, second, second_and_third, third,
};

// Whether two words are below 2^bits.
fn below(x: u64, y: u64, bits: u64) -> bool
    ensures { result ≡ ltb (x + 18446744073709551616 * y) (2 ^ bits) }
{
    if bits < 64 {
        if y == 0 {
            return x < 1u64 << bits;
        }
        return false;
    }
    if bits < 128 {
        return y < 1u64 << (bits - 64);
    }
    true
}

pub fn var_ok(p: &[u64], n: Node) -> bool
    requires { 4 * n.0 + 3 < length p.now }
    ensures { result ≡ ok_as Kind.var p.now n.0 }
{
    let x = low(p, n);
    if 32 <= x {
        return false;
    }
    (width_of(p, n) == 128)
        & (operand_word(p, n) == 0)
        & (high(p, n) == 0)
        & (set_of(p, n) == 1u64 << x)
}

pub fn const_ok(p: &[u64], n: Node) -> bool
    requires { 4 * n.0 + 3 < length p.now }
    ensures { result ≡ ok_as Kind.const p.now n.0 }
{
    // the width and, above it, the set, which has to be 0
    let width = width_of(p, n) + 65536 * set_of(p, n);
    if !((1 <= width) & (width <= 129) & (operand_word(p, n) == 0)) {
        return false;
    }
    below(low(p, n), high(p, n), width)
}

// The width over two operands of a and of b bits.
fn width_over(kind: u64, a: u64, b: u64) -> u64
    requires { (a < 65536) × (b < 65536) }
    ensures { result ≡ width_over kind a b }
{
    if kind == pool::words::Kind::CONCAT {
        return a + b;
    }
    if kind < pool::words::Kind::EQ {
        return a;
    }
    0
}

// An operator, a comparison or a Concat.
pub fn pair_ok(p: &[u64], n: Node, kind: u64) -> bool
    requires n_in_bounds { (4 * n.0 + 3 < length p.now) × (n.0 < none) }
    requires le_kind { (3 ≤ kind) × (kind < 18) × (kind ≡ 15 → ⊥) × (kind ≡ 16 → ⊥) }
    ensures { result ≡ ok_as (kind_at kind) p.now n.0 }
{
    let a = first(p, n);
    // C, above B, has to be 0
    let rest = second_and_third(p, n);
    if n.0 <= a.0 {
        return false;
    }
    if n.0 as u64 <= rest {
        return false;
    }
    let b = Node(rest as usize);
    let wa = width_of(p, a);
    let wb = width_of(p, b);
    let width = width_of(p, n);
    (1 <= wa)
        & ((wa == wb) | (kind == pool::words::Kind::CONCAT) & (1 <= wb))
        & (width == width_over(kind, wa, wb))
        & (width <= 129)
        & (low(p, n) == 0)
        & (high(p, n) == 0)
        & (set_of(p, n) == set_of(p, a) | set_of(p, b))
}

pub fn ite_ok(p: &[u64], n: Node) -> bool
    requires { 4 * n.0 + 3 < length p.now }
    ensures { result ≡ ok_as Kind.ite p.now n.0 }
{
    let a = first(p, n);
    let b = second(p, n);
    let c = third(p, n);
    if n.0 <= a.0 {
        return false;
    }
    if n.0 <= b.0 {
        return false;
    }
    if n.0 <= c.0 {
        return false;
    }
    let width = width_of(p, n);
    (1 <= width)
        & (width <= 129)
        & (low(p, n) == 0)
        & (high(p, n) == 0)
        & (width_of(p, a) == 0)
        & (width_of(p, b) == width)
        & (width_of(p, c) == width)
        & (set_of(p, n) == set_of(p, a) | set_of(p, b) | set_of(p, c))
}

pub fn extract_ok(p: &[u64], n: Node) -> bool
    requires { (4 * n.0 + 3 < length p.now) × (n.0 < none) }
    ensures { result ≡ ok_as Kind.extract p.now n.0 }
{
    let hi = cut_hi(p, n);
    let lo = cut_lo(p, n);
    // A and, above it, B and C, which have to be 0
    let rest = operand_word(p, n);
    if n.0 as u64 <= rest {
        return false;
    }
    if hi.0 < lo.0 {
        return false;
    }
    let a = Node(rest as usize);
    if width_of(p, a) <= hi.0 {
        return false;
    }
    (width_of(p, n) == hi.0 - lo.0 + 1) & (set_of(p, n) == set_of(p, a))
}

// A ZeroExtend or a SignExtend.
pub fn extend_ok(p: &[u64], n: Node) -> bool
    requires { (4 * n.0 + 3 < length p.now) × (n.0 < none) }
    ensures { result ≡ ok_as Kind.zext p.now n.0 }
{
    let rest = operand_word(p, n);
    if n.0 as u64 <= rest {
        return false;
    }
    let a = Node(rest as usize);
    let wa = width_of(p, a);
    let width = width_of(p, n);
    (1 <= width)
        & (width <= 129)
        & (low(p, n) == 0)
        & (high(p, n) == 0)
        & (1 <= wa)
        & (wa <= width)
        & (set_of(p, n) == set_of(p, a))
}
