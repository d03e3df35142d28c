// Gates: whether bits of two pools' nodes differ, as a literal; and refutations of it.
ghost use Rattle.std.specs.Prelude.{length};
ghost use Rattle.gates_question.specs.Question.{RoomIs, Answered as Questioned};
ghost use Rattle.equal.specs.Equal.{Answered as Equalled};

use equal::equal;
use gates_question::{question, question_room};
use pool::Node;

// Returns the number; how many gates and places of literals both pools need at most go to `gates` and `places`.
#[unsafe(no_mangle)]
pub extern "C" fn neon_question_room(
    first: &[u64],
    first_count: usize,
    second: &[u64],
    second_count: usize,
    gates: &mut usize,
    places: &mut usize,
) -> u64
    ensures { RoomIs first.now first_count second.now second_count
        (record { number = result; gates = gates.new; places = places.new }) }
{
    match question_room(first, first_count, second, second_count) {
        Ok(room) => {
            *gates = room.gates;
            *places = room.places;
            0
        }
        Err(refusal) => {
            *gates = 0;
            *places = 0;
            u64::from(refusal)
        }
    }
}

// Returns the number; how many gates were made and the literal go to `count` and `literal`.
#[unsafe(no_mangle)]
pub extern "C" fn neon_question(
    first: &[u64],
    first_count: usize,
    a: usize,
    second: &[u64],
    second_count: usize,
    b: usize,
    hi: usize,
    lo: usize,
    graph: &mut [u64],
    bits: &mut [u64],
    table: &mut [u64],
    count: &mut usize,
    literal: &mut u64,
) -> u64
    ensures { Questioned first.now first_count a second.now second_count b hi lo graph.old graph.new
        table.old table.new bits.old bits.new
        (record { number = result; count = count.new; literal = literal.new }) }
{
    let answer = question(
        first,
        first_count,
        Node(a),
        second,
        second_count,
        Node(b),
        hi,
        lo,
        graph,
        table,
        bits,
    );
    match answer {
        Ok(made) => {
            *count = made.count;
            *literal = made.literal;
            0
        }
        Err(refusal) => {
            *count = 0;
            *literal = 0;
            u64::from(refusal)
        }
    }
}

// Returns the number; the first refused step goes to `step`.
#[unsafe(no_mangle)]
pub extern "C" fn neon_equal(
    first: &[u64],
    first_count: usize,
    a: usize,
    second: &[u64],
    second_count: usize,
    b: usize,
    hi: usize,
    lo: usize,
    refutation: &[u32],
    graph: &mut [u64],
    bits: &mut [u64],
    table: &mut [u64],
    marks: &mut [u64],
    starts: &mut [u64],
    step: &mut usize,
) -> u64
    ensures { Equalled first.now first_count a second.now second_count b hi lo refutation.now
        graph.old graph.new table.old table.new bits.old bits.new
        (length marks.old) (length starts.old) (record { number = result; step = step.new }) }
{
    let answer = equal(
        first,
        first_count,
        Node(a),
        second,
        second_count,
        Node(b),
        hi,
        lo,
        refutation,
        graph,
        table,
        bits,
        marks,
        starts,
    );
    match answer {
        Ok(()) => {
            *step = 0;
            0
        }
        Err(e) => {
            *step = e.position;
            u64::from(e.refusal)
        }
    }
}
