// Two pools in one graph, and the literal that is true exactly when bits of a node of the one and of a node of the other differ.
#![tactic(auto)]

ghost use Rattle.std.specs.Prelude.{◌≡◌, ◌+◌, ◌*◌, ◌≤◌, length};
ghost use Rattle.gates.specs.Grow as grow;
ghost use Rattle.gates_words.specs.Words.{Reads};
ghost use Rattle.facts.specs.Answer.{number_of};
ghost use Rattle.gates_question.specs.Question.{RoomIs, Answered, room, asked, question_number, pools_number, gates_of_two};
ghost use Rattle.gates_question.specs.Build as build;

use facts::Refusal;
use gates_build::{Made, negate};
use gates_pool::nodes;
use gates_pool::room::gates_in;
use gates_words::compare::equal;
use pool::Node;
use pool_check::{of_width, pool_check};

// How many gates and places of literals two pools need at most.
#[derive(Clone, Copy)]
pub struct Room {
    pub gates: usize,
    pub places: usize,
}

// Either pool may be refused.
fn check_pools(first: &[u64], n: usize, second: &[u64], m: usize) -> Result<(), Refusal>
    ensures { number_of result ≡ pools_number first.now n second.now m 0 }
{
    if !pool_check(first, n) {
        return Err(Refusal::Pool);
    }
    if !pool_check(second, m) {
        return Err(Refusal::Pool);
    }
    Ok(())
}

// The most gates of both pools and of the comparison.
fn gates_of_two(first: &[u64], n: usize, second: &[u64], m: usize) -> usize
    requires { build.Pool first.now n × build.Pool second.now m }
    ensures { result ≡ gates_of_two first.now n second.now m }
{
    (gates_in(first, n) + gates_in(second, m) + 512) as usize
}

pub fn question_room(first: &[u64], n: usize, second: &[u64], m: usize) -> Result<Room, Refusal>
    ensures { RoomIs first.now n second.now m (room result) }
{
    check_pools(first, n, second, m)?;
    Ok(Room {
        gates: gates_of_two(first, n, second, m),
        places: 129 * (n + m + 1),
    })
}

// The first refusal of a question, if there is one.
fn refusal(
    first: &[u64],
    n: usize,
    a: Node,
    second: &[u64],
    m: usize,
    b: Node,
    hi: usize,
    lo: usize,
    graph: usize,
    bits: usize,
) -> Result<(), Refusal>
    ensures { number_of result ≡ question_number first.now n a.0 second.now m b.0 hi lo graph bits }
{
    let room = question_room(first, n, second, m)?;
    if !of_width(first, n, a, 128) {
        return Err(Refusal::Node);
    }
    if !of_width(second, m, b, 128) {
        return Err(Refusal::Node);
    }
    if hi < lo {
        return Err(Refusal::Bits);
    }
    if 127 < hi {
        return Err(Refusal::Bits);
    }
    if graph < room.gates {
        return Err(Refusal::Room);
    }
    if 2147479551 < room.gates {
        return Err(Refusal::Room);
    }
    if bits < room.places {
        return Err(Refusal::Room);
    }
    Ok(())
}

// The literals of both pools' nodes.
fn both(
    first: &[u64],
    n: usize,
    second: &[u64],
    m: usize,
    graph: &mut [u64],
    table: &mut [u64],
    bits: &mut [u64],
) -> usize
    requires { build.Ready first.now n second.now m graph.old bits.old }
    ensures { build.Both first.now n second.now m graph.old bits.old
        graph.new result bits.new }
{
    let made = nodes(first, n, graph, 0, table, bits);
    let at = 129 * n;
    nodes(second, m, graph, made, table, &mut bits[at..])
}

// Whether w bits from bit lo on differ in two words of 128 bits; the constant 0 if their literals are the same.
fn differ(
    graph: &mut [u64],
    count: usize,
    table: &mut [u64],
    bits: &[u64],
    a: usize,
    b: usize,
    lo: usize,
    w: usize,
) -> Made
    requires { grow.Room graph.old count (4 * w) × (lo + w ≤ 128) × Reads bits.now a 128 count × Reads bits.now b 128 count }
    ensures { grow.Builds graph.old count graph.new result.literal result.count (4 * w)
        (λ start. build.words_differ start graph.old bits.now a b lo w) }
{
    let same = equal(graph, count, table, bits, a + lo, b + lo, w);
    Made {
        literal: negate(same.literal),
        count: same.count,
    }
}

// The graph of both pools, and the literal that is true exactly when bits hi to lo of the nodes a and b differ.
pub fn question(
    first: &[u64],
    n: usize,
    a: Node,
    second: &[u64],
    m: usize,
    b: Node,
    hi: usize,
    lo: usize,
    graph: &mut [u64],
    table: &mut [u64],
    bits: &mut [u64],
) -> Result<Made, Refusal>
    ensures { Answered first.now n a.0 second.now m b.0 hi lo graph.old graph.new
        table.old table.new bits.old bits.new (asked result) }
{
    refusal(first, n, a, second, m, b, hi, lo, graph.len(), bits.len())?;
    let made = both(first, n, second, m, graph, table, bits);
    let there = 129 * (n + b.0);
    let here = 129 * a.0;
    Ok(differ(graph, made, table, bits, here, there, lo, hi - lo + 1))
}
