// Sum and difference.
ghost use Rattle.std.specs.Prelude.{◌+◌, ◌*◌, ◌≤◌, length};
ghost use Rattle.terms.specs.Value.{bvadd, bvsub};
ghost use Rattle.gates.specs.Grow.{Room};
ghost use Rattle.gates_words.specs.Number.{number};
ghost use Rattle.gates_circuits.specs.Makes.{Makes, Two};

use gates_words::adder::add;
use gates_words::bitwise::{Gate, by_bit};
use gates_words::copies::fill;

// a + b
pub fn sum(
    graph: &mut [u64],
    count: usize,
    table: &mut [u64],
    bits: &mut [u64],
    a: usize,
    b: usize,
    out: usize,
    w: usize,
) -> usize
    requires { Room graph.old count (7 * w) × (out + w ≤ length bits.old) × Two bits.old a b out w count }
    ensures { Makes graph.old count bits.old graph.new result bits.new out w (7 * w)
        (λ start. bvadd w (number start graph.old bits.old a w) (number start graph.old bits.old b w)) }
{
    let made = add(graph, count, table, bits, a, b, 0, out, w);
    made.count
}

// a - b: a + not b + 1
pub fn difference(
    graph: &mut [u64],
    count: usize,
    table: &mut [u64],
    bits: &mut [u64],
    a: usize,
    b: usize,
    out: usize,
    w: usize,
) -> usize
    requires { Room graph.old count (10 * w) × (out + w ≤ length bits.old) × Two bits.old a b out w count }
    ensures { Makes graph.old count bits.old graph.new result bits.new out w (10 * w)
        (λ start. bvsub w (number start graph.old bits.old a w) (number start graph.old bits.old b w)) }
{
    fill(bits, 1, out, w);
    let inverted = by_bit(Gate::Xor, graph, count, table, bits, b, out, out, w);
    let made = add(graph, inverted, table, bits, a, out, 1, out, w);
    made.count
}
