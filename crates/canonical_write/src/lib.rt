// The canonical pool of a root (document 02, S-13): its distinct subtrees in the order in which a left-first walk finishes them.
#![tactic(auto)]

ghost use Rattle.std.specs.Prelude.{◌≡◌, ◌+◌, ◌*◌, ◌≤◌, ◌<◌, length};
ghost use Rattle.pool.specs.Rules.{Valid};
ghost use Rattle.pool_fields.specs.Fields.{op_c};
ghost use Rattle.canonical_classes.specs.Class.{Classes, Long, Empty};
ghost use Rattle.canonical_order.specs.Walk.{AllNone, Numbered};
ghost use Rattle.canonical_write.specs.Canonise.{Answered, RootAnswered, Written, OneMore, canonised, number_if, new_operands};

use canonical_classes::{classes, node_at};
use canonical_order::walk;
use facts::Refusal;
use pool::Node;
use pool::words::{kind_of, kind_word_at, operands_word};
use pool_check::node_number;
use pool_fields::{first, high, low, second, third};
use pool_operands::{has_a, has_b, has_c};

// The operand m under its new number, node 0 if there is none.
fn number_if(there: bool, class: &[u16; 65536], number: &[u16; 65536], m: Node) -> Node
    requires { m.0 < 65536 }
    ensures { (result.0 ≡ number_if there class.now number.now m.0) × (result.0 < 65536) }
{
    if there {
        return node_at(number, node_at(class, m));
    }
    Node(0)
}

// Word 1 of a node, with the new numbers of its operands.
fn new_operands(pool: &[u64], class: &[u16; 65536], number: &[u16; 65536], n: Node) -> u64
    requires { (4 * n.0 + 3 < length pool.now) × (op_c pool.now n.0 < 65536) }
    ensures { result ≡ new_operands pool.now class.now number.now n.0 }
{
    let kind = kind_of(pool, n);
    let a = number_if(has_a(kind), class, number, first(pool, n));
    let b = number_if(has_b(kind), class, number, second(pool, n));
    let c = number_if(has_c(kind), class, number, third(pool, n));
    operands_word(a, b, c)
}

// Writes node j of the canonical pool.
fn write_one(
    pool: &[u64],
    class: &[u16; 65536],
    root: Node,
    number: &[u16; 65536],
    order: &[u16; 65536],
    k: usize,
    j: Node,
    out: &mut [u64],
)
    requires valid { (Valid pool.now (root.0 + 1)) × (4 * (root.0 + 1) ≤ length pool.now) × (root.0 < 65535) }
    requires classes { Classes pool.now (root.0 + 1) class.now }
    requires numbered { Numbered pool.now class.now root.0 number.now order.now k }
    requires j_lt_k { (j.0 < k) × (4 * k ≤ length out.old) × (k ≤ 65535) }
    ensures { OneMore pool.now root.0 j.0 out.old out.new }
{
    let n = node_at(order, j);
    let w1 = new_operands(pool, class, number, n);
    pool::push(
        out,
        j.0,
        kind_word_at(pool, n),
        w1,
        low(pool, n),
        high(pool, n),
    );
}

// Writes the first k nodes, all that there are.
fn write(
    pool: &[u64],
    class: &[u16; 65536],
    root: Node,
    number: &[u16; 65536],
    order: &[u16; 65536],
    k: usize,
    out: &mut [u64],
)
    requires valid { (Valid pool.now (root.0 + 1)) × (4 * (root.0 + 1) ≤ length pool.now) × (root.0 < 65535) }
    requires classes { Classes pool.now (root.0 + 1) class.now }
    requires numbered { Numbered pool.now class.now root.0 number.now order.now k }
    requires k_in_bounds { (4 * k ≤ length out.old) × (k ≤ 65535) }
    ensures { Written pool.now root.0 k out.old out.new }
{
    for j in 0..k {
        write_one(pool, class, root, number, order, k, Node(j), out);
    }
}

// An array of zeros, one of 65,535 everywhere, and two slots per node without links.
fn zeros() -> [u16; 65536]
    ensures { Long result × Empty result }
{
    [0u16; 65536]
}

fn nones() -> [u16; 65536]
    ensures { Long result × AllNone result }
{
    [65535u16; 65536]
}

fn free_ways() -> [u16; 131072]
    ensures { (length result ≡ 131072) × Empty result }
{
    [0u16; 131072]
}

// Counts the distinct subtrees before it writes a word, and answers how many nodes it writes. The tables are free once the classes are known:
// the walk has them for the order and the nodes that wait.
fn canonise_root(pool: &[u64], root: Node, out: &mut [u64]) -> Result<usize, Refusal>
    requires { (Valid pool.now (root.0 + 1)) × (4 * (root.0 + 1) ≤ length pool.now) × (root.0 < 65535) }
    ensures { RootAnswered pool.now root.0 out.old out.new (canonised result) }
{
    let mut class = zeros();
    let mut first = zeros();
    let mut second = zeros();
    let mut ways = free_ways();
    classes(
        pool,
        root.0 + 1,
        &mut class,
        &mut first,
        &mut second,
        &mut ways,
    );
    let mut number = nones();
    let all = walk(pool, &class, root, &mut number, &mut first, &mut second);
    if pool::places(out) < all {
        return Err(Refusal::Room);
    }
    write(pool, &class, root, &number, &first, all, out);
    Ok(all)
}

// The canonical pool of a root: its last node unfolds to the root's tree. Answers how many nodes are written.
pub fn canonise(pool: &[u64], count: usize, root: usize, out: &mut [u64]) -> Result<usize, Refusal>
    ensures { Answered pool.now count root out.old out.new (canonised result) }
{
    node_number(pool, count, Node(root))?;
    canonise_root(pool, Node(root), out)
}
