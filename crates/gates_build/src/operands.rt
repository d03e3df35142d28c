// Two literals in place of two others with the same conjunction, by the laws of absorption.
ghost use Rattle.std.specs.Prelude.{◌≤◌, ◌<◌, length};
ghost use Rattle.gates.specs.Grow.{Under};
ghost use Rattle.gates_build.specs.Reduce.{Ordered, Same, Absorbs};

use crate::negate;

// Two literals, the smaller one first.
fn ordered(a: u64, b: u64) -> (u64, u64)
    ensures { Ordered a b result.0 result.1 }
{
    if a <= b {
        return (a, b);
    }
    (b, a)
}

// Two literals in place of a and a literal b of the gate of x and y. If a or its negation is one of these, b or a is not needed, or not all of b.
fn absorb(a: u64, b: u64, x: u64, y: u64) -> (u64, u64)
    requires { a ≤ b }
    ensures { Absorbs a b x y result.0 result.1 }
{
    let not_x = negate(x);
    let not_y = negate(y);
    if b % 2 == 0 {
        if (a == x) | (a == y) {
            return ordered(1, b);
        }
        if (a == not_x) | (a == not_y) {
            return ordered(0, b);
        }
        return (a, b);
    }
    if (a == not_x) | (a == not_y) {
        return ordered(1, a);
    }
    if a == x {
        return ordered(a, not_y);
    }
    if a == y {
        return ordered(a, not_x);
    }
    (a, b)
}

// Two literals in place of a and b, if b is one of a gate that comes after its operands.
fn shorten(graph: &[u64], count: usize, a: u64, b: u64) -> (u64, u64)
    requires { (count ≤ length graph.now) × (a ≤ b) × Under b count }
    ensures { Same graph.now count a b result.0 result.1 }
{
    let variable = b / 2;
    if variable < 4097 {
        return (a, b);
    }
    let gate = (variable - 4097) as usize;
    let word = graph[gate];
    let x = word % 4294967296;
    let y = word / 4294967296;
    if variable <= x / 2 {
        return (a, b);
    }
    if variable <= y / 2 {
        return (a, b);
    }
    absorb(a, b, x, y)
}

// How often two literals are replaced at most.
const TURNS: usize = 16;

// Two literals in place of a and b.
pub fn reduced(graph: &[u64], count: usize, a: u64, b: u64) -> (u64, u64)
    requires { (count ≤ length graph.now) × Under a count × Under b count }
    ensures { Same graph.now count a b result.0 result.1 }
{
    let mut pair = ordered(a, b);
    for _ in 0..TURNS {
        let next = shorten(graph, count, pair.0, pair.1);
        if next.1 == pair.1 {
            return next;
        }
        pair = next;
    }
    pair
}
