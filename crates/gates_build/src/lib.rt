// Gates made one by one. Constants and operands of operands are folded, operands are in order, and a gate that is there already is found again.
#![tactic(auto)]

ghost use Rattle.std.specs.Prelude.{◌≡◌, ◌&&◌, ◌||◌, ◌*◌};
ghost use Rattle.gates.specs.Graph.{truth};
ghost use Rattle.gates.specs.Grow.{Room, Builds, Under, negated};

mod adders;
mod operands;
mod table;

pub use adders::{Sum, full_add, half_add, majority, mux, xor};
use operands::reduced;
use table::and_ordered;

// A literal that was built, and the count of gates after it.
#[derive(Clone, Copy)]
pub struct Made {
    pub literal: u64,
    pub count: usize,
}

// The other literal of a variable.
pub fn negate(l: u64) -> u64
    ensures { result ≡ negated l }
{
    l / 2 * 2 + (1 - l % 2)
}

pub fn and(graph: &mut [u64], count: usize, table: &mut [u64], a: u64, b: u64) -> Made
    requires { Room graph.old count 1 × Under a count × Under b count }
    ensures { Builds graph.old count graph.new result.literal result.count 1
        (λ start. truth start graph.old a && truth start graph.old b) }
{
    let (first, second) = reduced(graph, count, a, b);
    and_ordered(graph, count, table, first, second)
}

pub fn or(graph: &mut [u64], count: usize, table: &mut [u64], a: u64, b: u64) -> Made
    requires { Room graph.old count 1 × Under a count × Under b count }
    ensures { Builds graph.old count graph.new result.literal result.count 1
        (λ start. truth start graph.old a || truth start graph.old b) }
{
    let neither = and(graph, count, table, negate(a), negate(b));
    Made {
        literal: negate(neither.literal),
        count: neither.count,
    }
}
