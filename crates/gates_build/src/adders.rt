// The adders and the choice, made of a few conjunctions.
ghost use Rattle.gates.specs.Graph.{truth};
ghost use Rattle.gates.specs.Grow.{Room, Builds, Under};
ghost use Rattle.gates_build.specs.Adds.{HalfAdds, FullAdds, differ, most, choose};

use crate::{Made, and, negate, or};

// The sum of bits: its carry and its lowest bit, and the count of gates after them.
#[derive(Clone, Copy)]
pub struct Sum {
    pub carry: u64,
    pub bit: u64,
    pub count: usize,
}

pub fn half_add(graph: &mut [u64], count: usize, table: &mut [u64], a: u64, b: u64) -> Sum
    requires { Room graph.old count 3 × Under a count × Under b count }
    ensures { HalfAdds graph.old count graph.new result.carry result.bit result.count a b }
{
    let both = and(graph, count, table, a, b);
    let neither = and(graph, both.count, table, negate(a), negate(b));
    let differ = and(
        graph,
        neither.count,
        table,
        negate(both.literal),
        negate(neither.literal),
    );
    Sum {
        carry: both.literal,
        bit: differ.literal,
        count: differ.count,
    }
}

pub fn xor(graph: &mut [u64], count: usize, table: &mut [u64], a: u64, b: u64) -> Made
    requires { Room graph.old count 3 × Under a count × Under b count }
    ensures { Builds graph.old count graph.new result.literal result.count 3
        (λ start. differ (truth start graph.old a) (truth start graph.old b)) }
{
    let sum = half_add(graph, count, table, a, b);
    Made {
        literal: sum.bit,
        count: sum.count,
    }
}

pub fn full_add(graph: &mut [u64], count: usize, table: &mut [u64], a: u64, b: u64, c: u64) -> Sum
    requires { Room graph.old count 7 × Under a count × Under b count × Under c count }
    ensures { FullAdds graph.old count graph.new result.carry result.bit result.count a b c }
{
    let first = half_add(graph, count, table, a, b);
    let second = half_add(graph, first.count, table, first.bit, c);
    let carry = or(graph, second.count, table, first.carry, second.carry);
    Sum {
        carry: carry.literal,
        bit: second.bit,
        count: carry.count,
    }
}

// The carry of a full adder without its sum.
pub fn majority(graph: &mut [u64], count: usize, table: &mut [u64], a: u64, b: u64, c: u64) -> Made
    requires { Room graph.old count 5 × Under a count × Under b count × Under c count }
    ensures { Builds graph.old count graph.new result.literal result.count 5
        (λ start. most (truth start graph.old a) (truth start graph.old b) (truth start graph.old c)) }
{
    let first = half_add(graph, count, table, a, b);
    let second = and(graph, first.count, table, first.bit, c);
    or(graph, second.count, table, first.carry, second.literal)
}

// a if c holds, else b.
pub fn mux(graph: &mut [u64], count: usize, table: &mut [u64], c: u64, a: u64, b: u64) -> Made
    requires { Room graph.old count 3 × Under c count × Under a count × Under b count }
    ensures { Builds graph.old count graph.new result.literal result.count 3
        (λ start. choose (truth start graph.old c) (truth start graph.old a) (truth start graph.old b)) }
{
    if a == b {
        return Made { literal: a, count };
    }
    let then = and(graph, count, table, c, a);
    let other = and(graph, then.count, table, negate(c), b);
    or(graph, other.count, table, then.literal, other.literal)
}
