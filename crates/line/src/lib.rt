// A line of the program `lanes`: what it means and what is written for it (document 01, "Text and program"). The Rust has no
// counterpart.
#![tactic(auto)]

ghost use Rattle.std.specs.Prelude.{◌-◌, ◌≤◌, length};
ghost use Rattle.pool.specs.Node.{places};
ghost use Rattle.text_digits.specs.Writing.{Wrote};
ghost use Rattle.line.specs.Line.{answer_in, PoolAfter};

use line_fields::{fields_of, in_columns};
use line_output::{ANSWER_ROOM, put_refusal, put_term};

// The words of a pool for a block of one.
pub const POOL_WORDS: usize = 4 * (32 + pool::Node::RESERVE);

// The bytes to hold of a line: one more than a line in columns has.
pub const LINE_ROOM: usize = 25;

// Writes the answer to a line, at `at`. Where fewer bytes are left than the longest answer has, nothing is written. The place after it,
// which is inside the buffer where `at` is.
pub fn answer_line(pool: &mut [u64], line: &[u8], out: &mut [u8], at: usize) -> usize
    ensures wrote { Wrote out.old at (answer_in (length out.old - at) (places pool.old) line.now) result out.new }
    ensures pool_after { PoolAfter pool.old line.now (length out.old - at) pool.new }
    ensures upper_bound { at ≤ length out.old → result ≤ length out.new }
{
    if out.len() < at {
        return at;
    }
    if out.len() - at < ANSWER_ROOM {
        return at;
    }
    if !in_columns(line) {
        return put_refusal(10, out, at);
    }
    let numbers = fields_of(line);
    match block::lower_block(pool, &numbers) {
        Ok(map) => {
            let node = map.get(numbers[3]);
            put_term(pool, map.count, node, out, at)
        }
        Err(refused) => put_refusal(u64::from(refused.refusal), out, at),
    }
}
