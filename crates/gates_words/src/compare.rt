// Two words compared: equal, less, less with signs.
ghost use Rattle.std.specs.Prelude.{not, ◌&&◌, ◌≡◌, ◌+◌, ◌*◌, ◌≤◌, ◌<◌, ltb, eqb, length, get_or};
ghost use Rattle.terms.specs.Value.{bvslt};
ghost use Rattle.gates.specs.Graph.{truth};
ghost use Rattle.gates.specs.Grow.{Room, Builds, Under};
ghost use Rattle.gates_build.specs.Adds.{differ, most};
ghost use Rattle.gates_words.specs.Number.{number};
ghost use Rattle.gates_words.specs.Words.{Reads};

use gates_build::{Made, negate};

// Whether the bits so far were the same and these two are.
fn same_at(graph: &mut [u64], count: usize, table: &mut [u64], x: u64, y: u64, same: u64) -> Made
    requires { Room graph.old count 4 × Under x count × Under y count × Under same count }
    ensures { Builds graph.old count graph.new result.literal result.count 4
        (λ start. truth start graph.old same && not (differ (truth start graph.old x) (truth start graph.old y))) }
{
    let other = gates_build::xor(graph, count, table, x, y);
    gates_build::and(graph, other.count, table, same, negate(other.literal))
}

// The carry of x + not y + carry: whether the number of x is at least that of y, so far.
fn at_least_at(
    graph: &mut [u64],
    count: usize,
    table: &mut [u64],
    x: u64,
    y: u64,
    carry: u64,
) -> Made
    requires { Room graph.old count 5 × Under x count × Under y count × Under carry count }
    ensures { Builds graph.old count graph.new result.literal result.count 5
        (λ start. most (truth start graph.old x) (not (truth start graph.old y)) (truth start graph.old carry)) }
{
    gates_build::majority(graph, count, table, x, negate(y), carry)
}

pub fn equal(
    graph: &mut [u64],
    count: usize,
    table: &mut [u64],
    bits: &[u64],
    a: usize,
    b: usize,
    w: usize,
) -> Made
    requires { Room graph.old count (4 * w) × Reads bits.now a w count × Reads bits.now b w count }
    ensures { Builds graph.old count graph.new result.literal result.count (4 * w)
        (λ start. eqb (number start graph.old bits.now a w) (number start graph.old bits.now b w)) }
{
    let mut same = Made { literal: 1, count };
    for i in 0..w {
        same = same_at(
            graph,
            same.count,
            table,
            bits[a + i],
            bits[b + i],
            same.literal,
        );
    }
    same
}

// Whether the number of a is at least that of b: the carry of a + not b + 1.
fn at_least(
    graph: &mut [u64],
    count: usize,
    table: &mut [u64],
    bits: &[u64],
    a: usize,
    b: usize,
    w: usize,
) -> Made
    requires { Room graph.old count (5 * w) × Reads bits.now a w count × Reads bits.now b w count }
    ensures { Builds graph.old count graph.new result.literal result.count (5 * w)
        (λ start. not (ltb (number start graph.old bits.now a w) (number start graph.old bits.now b w))) }
{
    let mut carry = Made { literal: 1, count };
    for i in 0..w {
        carry = at_least_at(
            graph,
            carry.count,
            table,
            bits[a + i],
            bits[b + i],
            carry.literal,
        );
    }
    carry
}

pub fn less(
    graph: &mut [u64],
    count: usize,
    table: &mut [u64],
    bits: &[u64],
    a: usize,
    b: usize,
    w: usize,
) -> Made
    requires { Room graph.old count (5 * w) × Reads bits.now a w count × Reads bits.now b w count }
    ensures { Builds graph.old count graph.new result.literal result.count (5 * w)
        (λ start. ltb (number start graph.old bits.now a w) (number start graph.old bits.now b w)) }
{
    let carry = at_least(graph, count, table, bits, a, b, w);
    Made {
        literal: negate(carry.literal),
        count: carry.count,
    }
}

// If the signs differ, the negative number is less.
pub fn signed_less(
    graph: &mut [u64],
    count: usize,
    table: &mut [u64],
    bits: &[u64],
    a: usize,
    b: usize,
    w: usize,
) -> Made
    requires { Room graph.old count (5 * w + 6) × Reads bits.now a w count × Reads bits.now b w count × (1 ≤ w) }
    ensures { Builds graph.old count graph.new result.literal result.count (5 * w + 6)
        (λ start. bvslt w (number start graph.old bits.now a w) (number start graph.old bits.now b w)) }
{
    let below = less(graph, count, table, bits, a, b, w);
    let x = bits[a + (w - 1)];
    let y = bits[b + (w - 1)];
    let signs = gates_build::xor(graph, below.count, table, x, y);
    gates_build::mux(graph, signs.count, table, signs.literal, x, below.literal)
}
