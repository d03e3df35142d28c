// The value of a pool's node at a start, with a number of visits that may be made.
#![tactic(auto)]

ghost use Rattle.std.specs.Prelude.{◌≡◌, false, ◌≤◌, ◌<◌};
ghost use Rattle.pool.specs.Node.{kind_number, kind_at};
ghost use Rattle.terms.specs.Value.{bit as bit_of};
ghost use Rattle.pool_fields.specs.Fields.{op_a, op_b};
ghost use Rattle.text_parts.specs.Text.{Ready, single};
ghost use Rattle.wide.specs.Number.{num};
ghost use Rattle.evaluate.specs.Answer.{Answered, evaluated};
ghost use Rattle.evaluate.specs.Visits.{value_at};
ghost use Rattle.evaluate.specs.Step.{held, Visited, node_value, OperandsOf, OperandsAt, applied_at, InWords};

use facts::Refusal;
use pool::words::{Kind, kind_of, width_of};
use pool::{Bit, Node};
use pool_check::node_number;
use pool_fields::{first, high, low, second, third};
use text_parts::is_single;
use wide::Wide;
use wide_bit_vectors::{
    bv_add, bv_ashr, bv_concat, bv_extract, bv_lshr, bv_mul, bv_sext, bv_shl, bv_slt, bv_sub,
};

// A value goes from a visit to the one above it in three words that the caller lends.
fn load(v: &[u64; 3]) -> Wide
    ensures { num result ≡ held v.now }
{
    Wide {
        low: v[0],
        high: v[1],
        top: v[2],
    }
}

fn store(v: &mut [u64; 3], a: Wide)
    ensures { held v.new ≡ num a }
{
    *v = [a.low, a.high, a.top];
}

// The value of a condition.
#[tactic(auto, unfolding(wide::specs::Number::words))]
fn bit(b: bool) -> Wide
    ensures { num result ≡ bit_of b }
{
    if b {
        Wide {
            low: 1,
            high: 0,
            top: 0,
        }
    } else {
        Wide {
            low: 0,
            high: 0,
            top: 0,
        }
    }
}

// The value of a Var or a Const.
fn leaf(p: &[u64], n: Node, start: &[u64; 64]) -> Wide
    requires { Ready p.now n.0 × (kind_number p.now n.0 < 3) }
    ensures { num result ≡ value_at p.now start.now n.0 }
{
    if kind_of(p, n) == Kind::VAR {
        let r = low(p, n) as usize;
        return Wide {
            low: start[2 * r],
            high: start[2 * r + 1],
            top: 0,
        };
    }
    Wide {
        low: low(p, n),
        high: high(p, n),
        top: 0,
    }
}

// The value of a node from its operands' values a and b: wa and wb are their widths, w is its own, x and y are words 2 and 3.
fn apply(k: u64, a: Wide, b: Wide, wa: u64, wb: u64, w: u64, x: u64, y: u64) -> Wide
    requires { OperandsOf (kind_at k) wa wb w x y (num a) (num b) × (3 ≤ k) × (k < 20) × (k ≡ 15 → ⊥) }
    ensures { num result ≡ node_value (kind_at k) wa wb w x y (num a) (num b) }
{
    match k {
        Kind::ADD => bv_add(a, b, wa),
        Kind::SUB => bv_sub(a, b, wa),
        Kind::MUL => bv_mul(a, b, wa),
        Kind::AND => wide::and(a, b),
        Kind::OR => wide::or(a, b),
        Kind::XOR => wide::xor(a, b),
        Kind::SHL => bv_shl(a, b, wa),
        Kind::LSHR => bv_lshr(a, b, wa),
        Kind::ASHR => bv_ashr(a, b, wa),
        Kind::EQ => bit(wide::equal(a, b)),
        Kind::ULT => bit(wide::less(a, b)),
        Kind::SLT => bit(bv_slt(a, b, wa)),
        Kind::EXTRACT => bv_extract(a, Bit(x), Bit(y)),
        Kind::CONCAT => bv_concat(a, b, wb),
        Kind::ZERO_EXTEND => a,
        _ => bv_sext(a, wa, w),
    }
}

// The value of a node with operands that is no Ite, from their values a and b.
fn applied(p: &[u64], n: Node, k: u64, a: Wide, b: Wide) -> Wide
    requires ready { Ready p.now n.0 × (k ≡ kind_number p.now n.0) × (3 ≤ k) × (k ≡ 15 → ⊥) }
    requires operands_at { OperandsAt p.now n.0 (num a) (num b) }
    ensures { num result ≡ applied_at p.now n.0 (num a) (num b) }
{
    let wa = width_of(p, first(p, n));
    let w = width_of(p, n);
    let x = low(p, n);
    let y = high(p, n);
    if is_single(k) {
        return apply(k, a, b, wa, 0, w, x, y);
    }
    let wb = width_of(p, second(p, n));
    apply(k, a, b, wa, wb, w, x, y)
}

// The value of a node that is no Ite, from its operands' values in a and b, to a.
fn combine(p: &&[u64], n: Node, start: &[u64; 64], a: &mut [u64; 3], b: &[u64; 3])
    requires ready { Ready p.now.now n.0 × (kind_number p.now.now n.0 ≡ 15 → ⊥) × InWords start.now }
    requires a_value { 3 ≤ kind_number p.now.now n.0 → held a.old ≡ value_at p.now.now start.now (op_a p.now.now n.0) }
    requires b_value { 3 ≤ kind_number p.now.now n.0 → single (kind_number p.now.now n.0) ≡ false → held b.now ≡ value_at p.now.now start.now (op_b p.now.now n.0) }
    ensures { held a.new ≡ value_at p.now.now start.now n.0 }
{
    let k = kind_of(*p, n);
    if k < Kind::ADD {
        store(a, leaf(*p, n, start));
        return;
    }
    store(a, applied(*p, n, k, load(a), load(b)));
}

// What is left of the allowance when the visits below node n are taken off it, and 0 if they are more. The node's own visit
// is taken off by the caller. The value comes in `out`. The pool is behind a second reference, and `combine` is one function for all
// kinds, so that a level of the term takes 80 bytes of stack.
fn visit(p: &&[u64], n: Node, start: &[u64; 64], out: &mut [u64; 3], left: u64) -> u64
    requires { Ready p.now.now n.0 × InWords start.now }
    ensures { Visited p.now.now start.now n.0 left out.new result }
{
    if left == 0 {
        return 0;
    }
    let k = kind_of(*p, n);
    let mut t = [0; 3];
    if k < Kind::ADD {
        combine(p, n, start, out, &t);
        return left;
    }
    let c = visit(p, first(*p, n), start, out, left - 1);
    if c == 0 {
        return 0;
    }
    if k == Kind::ITE {
        if out[0] == 0 {
            return visit(p, third(*p, n), start, out, c - 1);
        }
        return visit(p, second(*p, n), start, out, c - 1);
    }
    if is_single(k) {
        combine(p, n, start, out, &t);
        return c;
    }
    let d = visit(p, second(*p, n), start, &mut t, c - 1);
    if d == 0 {
        return 0;
    }
    combine(p, n, start, out, &t);
    d
}

// That the entries of a slice are words is known to the proofs from a function that reads one.
fn words_of(s: &[u64]) -> u64
    ensures { InWords s.now }
{
    if s.len() == 0 {
        return 0;
    }
    s[0]
}

// The value of a node's term, and the visits made.
#[derive(Clone, Copy)]
pub struct TermValue {
    pub value: Wide,
    pub visits: u64,
}

// The value of a node's term at a start of 32 registers, two words each, with at most so many visits. Refuses by 1, 5 and 11.
pub fn evaluate(
    pool: &[u64],
    count: usize,
    node: usize,
    start: &[u64; 64],
    allowance: u64,
) -> Result<TermValue, Refusal>
    ensures { Answered pool.now start.now count node allowance (evaluated result) }
{
    node_number(pool, count, Node(node))?;
    words_of(start);
    let mut out = [0; 3];
    let left = visit(&pool, Node(node), start, &mut out, allowance);
    if left == 0 {
        return Err(Refusal::Visits);
    }
    Ok(TermValue {
        value: load(&out),
        visits: allowance - left + 1,
    })
}
