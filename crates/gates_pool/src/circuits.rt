// Nodes that need gates.
ghost use Rattle.std.specs.Prelude.{◌≡◌, ◌+◌, ◌*◌, ◌≤◌, ◌<◌, length};
ghost use Rattle.pool.specs.Node.{kind_at, kind_number};
ghost use Rattle.gates.specs.Grow.{Room, Builds};
ghost use Rattle.gates_words.specs.Number.{number};
ghost use Rattle.gates_words.specs.Words.{Reads};
ghost use Rattle.gates_circuits.specs.Makes.{Makes, Two};
ghost use Rattle.gates_pool.specs.Gates as gates;

use gates_build::Made;
use gates_circuits::products::product;
use gates_circuits::shifts::{shift_left, shift_right, shift_right_signed};
use gates_circuits::sums::{difference, sum};
use gates_words::bitwise::{Gate, by_bit, mux};
use gates_words::compare::{equal, less, signed_less};
use pool::Node;
use pool::words::{Kind, width_of};
use pool_fields::{first, second, third};

// An operator of two words of w bits.
fn operate(
    kind: u64,
    graph: &mut [u64],
    count: usize,
    table: &mut [u64],
    bits: &mut [u64],
    a: usize,
    b: usize,
    out: usize,
    w: usize,
) -> usize
    requires room { Room graph.old count (gates.gates_for (kind_at kind) w) × (out + 2 * w ≤ length bits.old) × (1 ≤ w) × (w ≤ 129)
        × Two bits.old a b out w count }
    requires le_kind { (3 ≤ kind) × (kind < 12) }
    ensures { Makes graph.old count bits.old graph.new result bits.new out w (gates.gates_for (kind_at kind) w)
        (λ start. gates.bv_value (kind_at kind) w (number start graph.old bits.old a w)
        (number start graph.old bits.old b w)) }
{
    match kind {
        Kind::ADD => sum(graph, count, table, bits, a, b, out, w),
        Kind::SUB => difference(graph, count, table, bits, a, b, out, w),
        Kind::MUL => product(graph, count, table, bits, a, b, out, w),
        Kind::AND => by_bit(Gate::And, graph, count, table, bits, a, b, out, w),
        Kind::OR => by_bit(Gate::Or, graph, count, table, bits, a, b, out, w),
        Kind::XOR => by_bit(Gate::Xor, graph, count, table, bits, a, b, out, w),
        Kind::SHL => shift_left(graph, count, table, bits, a, b, out, w),
        Kind::LSHR => shift_right(graph, count, table, bits, a, b, out, w),
        _ => shift_right_signed(graph, count, table, bits, a, b, out, w),
    }
}

// A comparison of two words of w bits.
fn compare(
    kind: u64,
    graph: &mut [u64],
    count: usize,
    table: &mut [u64],
    bits: &[u64],
    a: usize,
    b: usize,
    w: usize,
) -> Made
    requires room { Room graph.old count (gates.gates_for (kind_at kind) w) × (1 ≤ w) × Reads bits.now a w count × Reads bits.now b w count }
    requires le_kind { (12 ≤ kind) × (kind < 15) }
    ensures { Builds graph.old count graph.new result.literal result.count (gates.gates_for (kind_at kind) w)
        (λ start. gates.compare_holds (kind_at kind) w (number start graph.old bits.now a w)
        (number start graph.old bits.now b w)) }
{
    match kind {
        Kind::EQ => equal(graph, count, table, bits, a, b, w),
        Kind::ULT => less(graph, count, table, bits, a, b, w),
        _ => signed_less(graph, count, table, bits, a, b, w),
    }
}

// The literals of an operator's node.
pub fn operator_node(
    pool: &[u64],
    n: Node,
    kind: u64,
    graph: &mut [u64],
    count: usize,
    table: &mut [u64],
    bits: &mut [u64],
) -> usize
    requires { gates.Ready pool.now n.0 graph.old count bits.old × (kind ≡ kind_number pool.now n.0) × (3 ≤ kind) × (kind < 12) }
    ensures { gates.Made pool.now n.0 graph.old count bits.old graph.new result bits.new }
{
    let out = 129 * n.0;
    let a = first(pool, n);
    let b = second(pool, n);
    let w = width_of(pool, n) as usize;
    operate(
        kind,
        graph,
        count,
        table,
        bits,
        129 * a.0,
        129 * b.0,
        out,
        w,
    )
}

// The literal of a comparison's node.
pub fn compare_node(
    pool: &[u64],
    n: Node,
    kind: u64,
    graph: &mut [u64],
    count: usize,
    table: &mut [u64],
    bits: &mut [u64],
) -> usize
    requires { gates.Ready pool.now n.0 graph.old count bits.old × (kind ≡ kind_number pool.now n.0) × (12 ≤ kind) × (kind < 15) }
    ensures { gates.Made pool.now n.0 graph.old count bits.old graph.new result bits.new }
{
    let at = 129 * n.0;
    let a = first(pool, n);
    let b = second(pool, n);
    let w = width_of(pool, a) as usize;
    let made = compare(kind, graph, count, table, bits, 129 * a.0, 129 * b.0, w);
    bits[at] = made.literal;
    made.count
}

// The literals of an Ite.
pub fn choice_node(
    pool: &[u64],
    n: Node,
    graph: &mut [u64],
    count: usize,
    table: &mut [u64],
    bits: &mut [u64],
) -> usize
    requires { gates.Ready pool.now n.0 graph.old count bits.old × (kind_number pool.now n.0 ≡ 15) }
    ensures { gates.Made pool.now n.0 graph.old count bits.old graph.new result bits.new }
{
    let out = 129 * n.0;
    let condition = first(pool, n);
    let a = second(pool, n);
    let b = third(pool, n);
    let w = width_of(pool, n) as usize;
    let c = bits[129 * condition.0];
    mux(graph, count, table, bits, c, 129 * a.0, 129 * b.0, out, w)
}
