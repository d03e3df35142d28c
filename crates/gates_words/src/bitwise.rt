// Words bit by bit: conjunction, disjunction, difference, and the choice between two words.
ghost use Rattle.std.specs.Prelude.{◌≡◌, ◌+◌, ◌*◌, ◌≤◌, ◌<◌, length, get_or};
ghost use Rattle.gates.specs.Graph.{truth};
ghost use Rattle.gates.specs.Grow.{Room, Builds, Under};
ghost use Rattle.gates_build.specs.Adds.{choose};
ghost use Rattle.gates_words.specs.Number.{number};
ghost use Rattle.gates_words.specs.Words.{Operand, Put, Writes};
ghost use Rattle.gates_words.specs.Bitwise.{gate_of, bits_of, ite_of};

use gates_build::Made;

#[derive(Clone, Copy)]
pub enum Gate {
    And,
    Or,
    Xor,
}

// The gate of two literals.
fn make(kind: Gate, graph: &mut [u64], count: usize, table: &mut [u64], a: u64, b: u64) -> Made
    requires { Room graph.old count 3 × Under a count × Under b count }
    ensures { Builds graph.old count graph.new result.literal result.count 3
        (λ start. gate_of kind (truth start graph.old a) (truth start graph.old b)) }
{
    match kind {
        Gate::And => gates_build::and(graph, count, table, a, b),
        Gate::Or => gates_build::or(graph, count, table, a, b),
        Gate::Xor => gates_build::xor(graph, count, table, a, b),
    }
}

// The gate of the literals at two places, put at a third.
fn gate_at(
    kind: Gate,
    graph: &mut [u64],
    count: usize,
    table: &mut [u64],
    bits: &mut [u64],
    x: usize,
    y: usize,
    at: usize,
) -> usize
    requires room { Room graph.old count 3 × (x < length bits.old) × (y < length bits.old) × (at < length bits.old) }
    requires under { Under (get_or bits.old x 0) count × Under (get_or bits.old y 0) count }
    ensures { Put graph.old count bits.old graph.new result bits.new at 3
        (λ start. gate_of kind (truth start graph.old (get_or bits.old x 0))
        (truth start graph.old (get_or bits.old y 0))) }
{
    let made = make(kind, graph, count, table, bits[x], bits[y]);
    bits[at] = made.literal;
    made.count
}

// The gate of each two bits of two words.
pub fn by_bit(
    kind: Gate,
    graph: &mut [u64],
    count: usize,
    table: &mut [u64],
    bits: &mut [u64],
    a: usize,
    b: usize,
    out: usize,
    w: usize,
) -> usize
    requires { Room graph.old count (3 * w) × (out + w ≤ length bits.old) × Operand bits.old a out w count × Operand bits.old b out w count }
    ensures { Writes graph.old count bits.old graph.new result bits.new out w (3 * w)
        (λ start. bits_of kind (number start graph.old bits.old a w) (number start graph.old bits.old b w)) }
{
    let mut all = count;
    for i in 0..w {
        all = gate_at(kind, graph, all, table, bits, a + i, b + i, out + i);
    }
    all
}

// The literal at x if c holds, else the one at y, put at a third place.
fn mux_at(
    graph: &mut [u64],
    count: usize,
    table: &mut [u64],
    bits: &mut [u64],
    c: u64,
    x: usize,
    y: usize,
    at: usize,
) -> usize
    requires room { Room graph.old count 3 × (x < length bits.old) × (y < length bits.old) × (at < length bits.old) }
    requires under { Under c count × Under (get_or bits.old x 0) count × Under (get_or bits.old y 0) count }
    ensures { Put graph.old count bits.old graph.new result bits.new at 3
        (λ start. choose (truth start graph.old c)
        (truth start graph.old (get_or bits.old x 0)) (truth start graph.old (get_or bits.old y 0))) }
{
    let made = gates_build::mux(graph, count, table, c, bits[x], bits[y]);
    bits[at] = made.literal;
    made.count
}

// The word a if the literal c holds, else the word b.
pub fn mux(
    graph: &mut [u64],
    count: usize,
    table: &mut [u64],
    bits: &mut [u64],
    c: u64,
    a: usize,
    b: usize,
    out: usize,
    w: usize,
) -> usize
    requires { Room graph.old count (3 * w) × (out + w ≤ length bits.old) × Operand bits.old a out w count × Operand bits.old b out w count
        × Under c count }
    ensures { Writes graph.old count bits.old graph.new result bits.new out w (3 * w)
        (λ start. ite_of (truth start graph.old c)
        (number start graph.old bits.old a w) (number start graph.old bits.old b w)) }
{
    let mut all = count;
    for i in 0..w {
        all = mux_at(graph, all, table, bits, c, a + i, b + i, out + i);
    }
    all
}
