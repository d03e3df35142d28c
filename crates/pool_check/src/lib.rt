// The pool check of document 01: whether every node below the count keeps the pool's rules; and the numbers 1 and 5 of what is asked of a node.
#![tactic(auto)]

ghost use Rattle.std.specs.Prelude.{◌&&◌, ◌≡◌, ◌+◌, ◌*◌, ◌≤◌, ◌<◌, eqb, length};
ghost use Rattle.facts.specs.Answer.{number_of};
ghost use Rattle.pool.specs.Node.{none};
ghost use Rattle.pool.specs.Rules.{ok_node, ok_pool, pool_ok, node_number, of_width};
ghost use Rattle.pool_check.specs.Plain.{plain_at, plain_from};

use facts::Refusal;
use pool::Node;
use pool::words::{Kind, kind_of, width_of};
use pool_rules::{const_ok, extend_ok, extract_ok, ite_ok, pair_ok, var_ok};

// Whether node n obeys the rules, and is no Var from node `plain` on. Kinds that are rarer than those of two operands are asked for first, one
// by one: if kinds come in random order the processor then guesses wrong less often.
fn node_ok(pool: &[u64], n: Node, plain: Node) -> bool
    requires { (4 * n.0 + 3 < length pool.now) × (n.0 < none) }
    ensures { result ≡ (ok_node pool.now n.0 && plain_at pool.now plain.0 n.0) }
{
    let kind = kind_of(pool, n);
    if kind == Kind::CONST {
        return const_ok(pool, n);
    }
    if kind == Kind::EXTRACT {
        return extract_ok(pool, n);
    }
    if kind == Kind::ITE {
        return ite_ok(pool, n);
    }
    if Kind::ZERO_EXTEND <= kind {
        if kind <= Kind::SIGN_EXTEND {
            return extend_ok(pool, n);
        }
        return false;
    }
    // a call of its own: each of the two is compiled for what is known of the kind
    if kind == Kind::CONCAT {
        return pair_ok(pool, n, Kind::CONCAT);
    }
    if kind < Kind::ADD {
        if kind == Kind::VAR {
            return (n.0 < plain.0) & var_ok(pool, n);
        }
        return false;
    }
    pair_ok(pool, n, kind)
}

// The first node below count that node_ok refuses; count if there is none.
fn first_refused(pool: &[u64], count: usize, plain: Node) -> Node
    requires { (4 * count ≤ length pool.now) × (count ≤ none) }
    ensures { eqb result.0 count ≡ (ok_pool pool.now count && plain_from pool.now plain.0 count) }
{
    for n in 0..count {
        if !node_ok(pool, Node(n), plain) {
            return Node(n);
        }
    }
    Node(count)
}

// Whether the pool has count places, each node below count obeys the rules, and none from node `plain` on is a Var.
pub fn check_plain(pool: &[u64], count: usize, plain: Node) -> bool
    ensures { result ≡ (pool_ok pool.now count && plain_from pool.now plain.0 count) }
{
    if pool::places(pool) < count {
        return false;
    }
    first_refused(pool, count, plain).0 == count
}

// Whether the pool has count places, and each node below count obeys the rules.
pub fn pool_check(pool: &[u64], count: usize) -> bool
    ensures { result ≡ pool_ok pool.now count }
{
    check_plain(pool, count, Node(count))
}

// Refuses a bad pool, and then a node that it has not.
pub fn node_number(pool: &[u64], count: usize, n: Node) -> Result<(), Refusal>
    ensures { number_of result ≡ node_number pool.now count n.0 0 }
{
    if !pool_check(pool, count) {
        return Err(Refusal::Pool);
    }
    if count <= n.0 {
        return Err(Refusal::Node);
    }
    Ok(())
}

// Whether there is a node n, and it has so many bits.
pub fn of_width(pool: &[u64], count: usize, n: Node, bits: u64) -> bool
    requires { 4 * count ≤ length pool.now }
    ensures { result ≡ of_width pool.now count n.0 bits }
{
    if n.0 < count {
        return width_of(pool, n) == bits;
    }
    false
}
