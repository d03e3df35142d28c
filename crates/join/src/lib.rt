// Two pools as one, with an Eq of a term of each (document 02, S-11). The Rust has no counterpart.
#![tactic(auto)]

ghost use Rattle.std.specs.Prelude.{cond, ◌&&◌, ◌≡◌, ℕ, ◌+◌, ◌-◌, ◌*◌, ◌≤◌, ◌<◌, ltb, length};
ghost use Rattle.pool.specs.Node.{places, word_at};
ghost use Rattle.pool.specs.Rules.{pool_ok, Valid};
ghost use Rattle.join.specs.Starts.{var_rule, starts_with_registers};
ghost use Rattle.facts.specs.Answer.{number_of};
ghost use Rattle.join.specs.Join.{moved_parts, join_count, join_number, joined, Answered, Half, SecondAt, write_moved, write_eq};

use facts::Refusal;
use pool::words::{Kind, kind_of, kind_word, kind_word_at, operands_word, set_of};
use pool::{Node, places, push};
use pool_check::{check_plain, of_width};
use pool_fields::{first, high, low, operand_word, second, third};

// The Eq of a joined pool, and how many nodes there are with it.
#[derive(Clone, Copy)]
pub struct JoinedPool {
    pub node: Node,
    pub count: usize,
}

// Whether node n, one of the first 32, is Var n.
fn is_register(pool: &[u64], n: Node) -> bool
    requires { (4 * n.0 + 3 < length pool.now) × (n.0 < 32) }
    ensures { result ≡ var_rule pool.now n.0 }
{
    (kind_of(pool, n) == Kind::VAR) & (low(pool, n) == n.0 as u64)
}

// Whether the pool passes the check, begins with the registers and has no further Var.
fn starts(pool: &[u64], count: usize) -> bool
    ensures { result ≡ (pool_ok pool.now count && starts_with_registers pool.now count) }
{
    if !check_plain(pool, count, Node(32)) {
        return false;
    }
    if count < 32 {
        return false;
    }
    for n in 0..32 {
        if !is_register(pool, Node(n)) {
            return false;
        }
    }
    true
}

// What the number of the second pool's node m grows by; its registers keep theirs.
fn raised(by: u64, m: Node) -> u64
    ensures { (result ≡ cond (ltb m.0 32) 0 by) × (result ≤ by) }
{
    if 32 <= m.0 {
        return by;
    }
    0
}

// Word 1 of the second pool's node m, with its operands under their new numbers; the first pool has c nodes. The kind is not asked: an
// operand that it has not is 0, and stays 0.
fn moved_word(c: u64, pool: &[u64], m: Node) -> u64
    requires { (32 ≤ c) × (c ≤ 65535) × (4 * m.0 + 3 < length pool.now) × (word_at pool.now m.0 1 < 281474976710656) }
    ensures { result ≡ moved_parts c (word_at pool.now m.0 1) }
{
    let by = c - 32;
    operand_word(pool, m)
        + raised(by, first(pool, m))
        + 65536 * raised(by, second(pool, m))
        + 4294967296 * raised(by, third(pool, m))
}

// Copies the first pool's nodes. By a loop: of `copy_from_slice` the compiler makes a call of `memmove`, which C would have to have.
fn copy_first(first: &[u64], c: usize, out: &mut [u64])
    requires { (4 * c ≤ length first.now) × (4 * c ≤ length out.old) × (c ≤ 65535) }
    ensures { Half first.now out.old out.new (4 * c) }
{
    for i in 0..4 * c {
        out[i] = first[i];
    }
}

// Writes the copy of the second pool's node m.
fn move_one(second: &[u64], c: usize, m: Node, out: &mut [u64])
    requires le_c { (32 ≤ c) × (c ≤ 65535) × (32 ≤ m.0) × (m.0 < 65535) }
    requires m_in_bounds { (4 * m.0 + 3 < length second.now) × (4 * (m.0 + c) + 4 ≤ length out.old + 128) × (m.0 + c < 65567) }
    requires m_bound { word_at second.now m.0 1 < 281474976710656 }
    ensures { out.new ≡ write_moved c second.now m.0 out.old }
{
    push(
        out,
        m.0 + c - 32,
        kind_word_at(second, m),
        moved_word(c as u64, second, m),
        low(second, m),
        high(second, m),
    );
}

// Copies both pools' nodes, of the second pool's all but its registers. The contract holds for whatever nodes x and y the Eq is of.
fn copy_pools(first: &[u64], c: usize, second: &[u64], d: usize, out: &mut [u64])
    requires valid { (Valid second.now d) × (4 * d ≤ length second.now) × (32 ≤ d) }
    requires c_in_bounds { (4 * c ≤ length first.now) × (32 ≤ c) }
    requires d_in_bounds { (4 * join_count c d ≤ length out.old) × (join_count c d ≤ 65535) }
    ensures { (x y : ℕ) → SecondAt first.now c second.now d x y out.old out.new (c + d - 32) }
{
    copy_first(first, c, out);
    for m in 32..d {
        move_one(second, c, Node(m), out);
    }
}

// Writes the Eq of the first pool's x and of the second's y.
fn put_eq(first: &[u64], c: usize, second: &[u64], d: usize, x: Node, y: Node, out: &mut [u64])
    requires c_in_bounds { (4 * c ≤ length first.now) × (4 * d ≤ length second.now) }
    requires le_c { (32 ≤ c) × (32 ≤ d) × (x.0 < c) × (y.0 < d) }
    requires d_in_bounds { (4 * join_count c d ≤ length out.old) × (join_count c d ≤ 65535) }
    ensures { out.new ≡ write_eq first.now c second.now d x.0 y.0 out.old }
{
    let set = set_of(first, x) | set_of(second, y);
    let b = Node(y.0 + raised(c as u64 - 32, y) as usize);
    push(
        out,
        c + d - 32,
        kind_word(Kind::EQ, 0, set),
        operands_word(x, b, Node(0)),
        0,
        0,
    );
}

// The refusal of a join, if there is one: of the first pool, then of the second; of the nodes; of the room.
fn check_join(
    first: &[u64],
    c: usize,
    second: &[u64],
    d: usize,
    x: Node,
    y: Node,
    out: &[u64],
) -> Result<(), Refusal>
    ensures { number_of result ≡ join_number first.now c second.now d x.0 y.0 out.now }
{
    if !starts(first, c) {
        return Err(Refusal::Pool);
    }
    if !starts(second, d) {
        return Err(Refusal::Pool);
    }
    if !(of_width(first, c, x, 128) & of_width(second, d, y, 128)) {
        return Err(Refusal::Node);
    }
    if places(out) < c + d - 31 {
        return Err(Refusal::Room);
    }
    Ok(())
}

// The first pool, the second without its registers, and the Eq of the first's x and of the second's y.
pub fn join(
    first: &[u64],
    c: usize,
    second: &[u64],
    d: usize,
    x: usize,
    y: usize,
    out: &mut [u64],
) -> Result<JoinedPool, Refusal>
    ensures { Answered first.now c second.now d x y out.old out.new (joined result) }
{
    check_join(first, c, second, d, Node(x), Node(y), out)?;
    copy_pools(first, c, second, d, out);
    put_eq(first, c, second, d, Node(x), Node(y), out);
    Ok(JoinedPool {
        node: Node(c + d - 32),
        count: c + d - 31,
    })
}
