// The sum of two words, and what comparing them needs of it.
ghost use Rattle.std.specs.Prelude.{not, ◌≡◌, ◌+◌, ◌*◌, ◌^◌, ◌≤◌, ◌<◌, ltb, eqb, length, get_or};
ghost use Rattle.terms.specs.Value.{bit};
ghost use Rattle.gates.specs.Graph.{truth};
ghost use Rattle.gates.specs.Grow.{Room, Builds, Under, Grown};
ghost use Rattle.gates_build.specs.Adds.{differ, most};
ghost use Rattle.gates_words.specs.Number.{number};
ghost use Rattle.gates_words.specs.Words.{Low, Operand, Put, Run};
ghost use Rattle.gates_words.specs.Adds.{PutsSum, Adds};

use gates_build::Made;

// The full adder of the literals at two places and a carry: its bit is put at a third place, its carry is the answer.
fn add_at(
    graph: &mut [u64],
    count: usize,
    table: &mut [u64],
    bits: &mut [u64],
    x: usize,
    y: usize,
    carry: u64,
    at: usize,
) -> Made
    requires room { Room graph.old count 7 × (x < length bits.old) × (y < length bits.old) × (at < length bits.old) }
    requires under { Under (get_or bits.old x 0) count × Under (get_or bits.old y 0) count × Under carry count }
    ensures { PutsSum graph.old count bits.old graph.new result bits.new at
        (get_or bits.old x 0) (get_or bits.old y 0) carry }
{
    let sum = gates_build::full_add(graph, count, table, bits[x], bits[y], carry);
    bits[at] = sum.bit;
    Made {
        literal: sum.carry,
        count: sum.count,
    }
}

// The sum of two words and a carry; the answer is the carry out.
pub fn add(
    graph: &mut [u64],
    count: usize,
    table: &mut [u64],
    bits: &mut [u64],
    a: usize,
    b: usize,
    carry: u64,
    out: usize,
    w: usize,
) -> Made
    requires { Room graph.old count (7 * w) × (out + w ≤ length bits.old) × Operand bits.old a out w count × Operand bits.old b out w count
        × Under carry count }
    ensures { Adds graph.old count bits.old graph.new result bits.new a b carry out w }
{
    let mut sum = Made {
        literal: carry,
        count,
    };
    for i in 0..w {
        sum = add_at(
            graph,
            sum.count,
            table,
            bits,
            a + i,
            b + i,
            sum.literal,
            out + i,
        );
    }
    sum
}
