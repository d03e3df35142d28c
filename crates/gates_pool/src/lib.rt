// The bits of a pool's nodes, as literals of a graph of gates.
#![tactic(auto)]

ghost use Rattle.std.specs.Prelude.{◌+◌, ◌*◌, ◌≤◌, length};
ghost use Rattle.pool.specs.Rules.{Valid};
ghost use Rattle.gates.specs.Grow.{Room};
ghost use Rattle.gates_pool.specs.Gates as gates;

use pool::Node;
use pool::words::{Kind, kind_of};

pub mod circuits;
pub mod room;
pub mod wires;

// The literals of node n, over those of the nodes before it.
fn node(
    pool: &[u64],
    n: Node,
    graph: &mut [u64],
    count: usize,
    table: &mut [u64],
    bits: &mut [u64],
) -> usize
    requires { gates.Ready pool.now n.0 graph.old count bits.old }
    ensures { gates.Made pool.now n.0 graph.old count bits.old graph.new result bits.new }
{
    let kind = kind_of(pool, n);
    if kind < Kind::ADD {
        wires::wires(pool, n, bits);
        return count;
    }
    if Kind::EXTRACT <= kind {
        wires::wires(pool, n, bits);
        return count;
    }
    if kind < Kind::EQ {
        return circuits::operator_node(pool, n, kind, graph, count, table, bits);
    }
    if kind == Kind::ITE {
        return circuits::choice_node(pool, n, graph, count, table, bits);
    }
    circuits::compare_node(pool, n, kind, graph, count, table, bits)
}

// The literals of all nodes, in a graph of `old` gates.
pub fn nodes(
    pool: &[u64],
    count: usize,
    graph: &mut [u64],
    old: usize,
    table: &mut [u64],
    bits: &mut [u64],
) -> usize
    requires valid { Valid pool.now count × (4 * count ≤ length pool.now) × Room graph.old old (gates.gates_in pool.now count) }
    requires count_in_bounds { 129 * (count + 1) ≤ length bits.old }
    ensures { gates.Nodes pool.now count graph.old old bits.old graph.new result bits.new }
{
    let mut all = old;
    for n in 0..count {
        all = node(pool, Node(n), graph, all, table, bits);
    }
    all
}
