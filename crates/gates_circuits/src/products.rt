// Products: a row for each bit of the second word, added to the rows so far.
ghost use Rattle.std.specs.Prelude.{◌+◌, ◌-◌, ◌*◌, ◌%◌, ◌^◌, ◌≤◌, ◌<◌, length};
ghost use Rattle.terms.specs.Value.{bit, bvmul};
ghost use Rattle.gates.specs.Graph.{truth};
ghost use Rattle.gates.specs.Grow.{Room, Under};
ghost use Rattle.gates_words.specs.Number.{number};
ghost use Rattle.gates_words.specs.Words.{Low};
ghost use Rattle.gates_circuits.specs.Makes.{Makes, Two};

use gates_words::adder::add;
use gates_words::bitwise::{Gate, by_bit};
use gates_words::copies::fill;

// The word a, j places up, added to the word at `out` if the literal holds.
fn row(
    graph: &mut [u64],
    count: usize,
    table: &mut [u64],
    bits: &mut [u64],
    a: usize,
    literal: u64,
    out: usize,
    j: usize,
    w: usize,
) -> usize
    requires room { Room graph.old count (10 * w) × (out + 2 * w ≤ length bits.old) × (j ≤ w) × (a + w ≤ out) }
    requires under { Under literal count × Low bits.old out w count × Low bits.old a w count }
    ensures { Makes graph.old count bits.old graph.new result bits.new out w (10 * w)
        (λ start. (number start graph.old bits.old out w
        + bit (truth start graph.old literal) * number start graph.old bits.old a w * 2 ^ j) % 2 ^ w) }
{
    let n = w - j;
    fill(bits, literal, out + w, n);
    let masked = by_bit(Gate::And, graph, count, table, bits, a, out + w, out + w, n);
    let sum = add(graph, masked, table, bits, out + j, out + w, 0, out + j, n);
    sum.count
}

// The product of a and b added to the word at `out`.
fn rows(
    graph: &mut [u64],
    count: usize,
    table: &mut [u64],
    bits: &mut [u64],
    a: usize,
    b: usize,
    out: usize,
    w: usize,
) -> usize
    requires { Room graph.old count (10 * w * w) × (out + 2 * w ≤ length bits.old) × Low bits.old out w count × Two bits.old a b out w count }
    ensures { Makes graph.old count bits.old graph.new result bits.new out w (10 * w * w)
        (λ start. (number start graph.old bits.old out w
        + number start graph.old bits.old a w * number start graph.old bits.old b w) % 2 ^ w) }
{
    let mut all = count;
    for j in 0..w {
        let literal = bits[b + j];
        all = row(graph, all, table, bits, a, literal, out, j, w);
    }
    all
}

fn multiply(
    graph: &mut [u64],
    count: usize,
    table: &mut [u64],
    bits: &mut [u64],
    a: usize,
    b: usize,
    out: usize,
    w: usize,
) -> usize
    requires { Room graph.old count (10 * w * w) × (out + 2 * w ≤ length bits.old) × Two bits.old a b out w count }
    ensures { Makes graph.old count bits.old graph.new result bits.new out w (10 * w * w)
        (λ start. bvmul w (number start graph.old bits.old a w) (number start graph.old bits.old b w)) }
{
    fill(bits, 0, out, w);
    rows(graph, count, table, bits, a, b, out, w)
}

// Whether the literals of a come before those of b: the smaller one at the first place at which they differ.
fn comes_first(bits: &[u64], a: usize, b: usize, w: usize) -> bool
    requires { (a + w ≤ length bits.now) × (b + w ≤ length bits.now) }
{
    &bits[a..a + w] <= &bits[b..b + w]
}

// a × b. The words are put in order, so that b × a makes the same gates.
pub fn product(
    graph: &mut [u64],
    count: usize,
    table: &mut [u64],
    bits: &mut [u64],
    a: usize,
    b: usize,
    out: usize,
    w: usize,
) -> usize
    requires { Room graph.old count (10 * w * w) × (out + 2 * w ≤ length bits.old) × Two bits.old a b out w count }
    ensures { Makes graph.old count bits.old graph.new result bits.new out w (10 * w * w)
        (λ start. bvmul w (number start graph.old bits.old a w) (number start graph.old bits.old b w)) }
{
    if comes_first(bits, a, b, w) {
        return multiply(graph, count, table, bits, a, b, out, w);
    }
    multiply(graph, count, table, bits, b, a, out, w)
}
