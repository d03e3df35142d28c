// The script of a pool: 1, 5 and 9, or the bytes. The length is known before the first byte is written, so that a refusal writes
// nothing.
#![tactic(auto)]

ghost use Rattle.facts.specs.Answer.{number_of, value_or};
ghost use Rattle.script_write.specs.Answer.{Answered};

use facts::Refusal;
use pool::Node;
use script_length::{measure, script_number};
use script_text::put_script;

// Writes the script that asks whether nodes a and b differ to the front of a buffer, and leaves the bytes after it. Gives its length. Refuses a
// bad pool, a node that may not be chosen, and a buffer that is shorter than the script, and then writes nothing.
pub fn write_script(
    pool: &[u64],
    count: usize,
    a: usize,
    b: usize,
    buffer: &mut [u8],
) -> Result<usize, Refusal>
    ensures { Answered pool.now count a b buffer.old (number_of result) (value_or 0 result) buffer.new }
{
    script_number(pool, count, Node(a), Node(b))?;
    let size = measure(pool, count, Node(a), Node(b));
    if buffer.len() < size {
        return Err(Refusal::Buffer);
    }
    put_script(pool, count, Node(a), Node(b), buffer, 0);
    Ok(size)
}
