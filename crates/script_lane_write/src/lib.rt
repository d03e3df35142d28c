// The script of a pool by lanes: 1, 5 and 9, or the bytes. The length is known before the first byte is written, so that a refusal writes
// nothing.
#![tactic(auto)]

ghost use Rattle.facts.specs.Answer.{number_of, value_or};
ghost use Rattle.script_lane_write.specs.Answer.{LaneAnswered};

use facts::Refusal;
use pool::{Bit, Node};
use script_lane_length::{lane_measure, lane_number};
use script_lane_text::put_lane_script;

// Writes the script that asks whether nodes a and b differ in the bits from hi down to lo to the front of a buffer, and leaves the bytes
// after it. Gives its length. Refuses as `lane_number` does, and then a buffer that is shorter than the script, and then writes nothing.
#[tactic(auto, using(crate::proofs::Answers::refused))]
pub fn write_lane_script(
    pool: &[u64],
    count: usize,
    a: usize,
    b: usize,
    hi: u64,
    lo: u64,
    buffer: &mut [u8],
) -> Result<usize, Refusal>
    ensures { LaneAnswered pool.now count a b hi lo buffer.old (number_of result) (value_or 0 result) buffer.new }
{
    lane_number(pool, count, Node(a), Node(b), Bit(hi), Bit(lo))?;
    let size = lane_measure(pool, count, Node(a), Node(b), Bit(hi), Bit(lo));
    if buffer.len() < size {
        return Err(Refusal::Buffer);
    }
    put_lane_script(pool, count, Node(a), Node(b), Bit(hi), Bit(lo), buffer, 0);
    Ok(size)
}
