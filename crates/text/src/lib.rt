// The text of a node of a pool: 1, 5 and 9, or the bytes. The length is known before the first byte is written, so that a refusal
// writes nothing.
#![tactic(auto)]

ghost use Rattle.facts.specs.Answer.{number_of, value_or};
ghost use Rattle.text_digits.specs.Writing.{Room, Wrote};
ghost use Rattle.text_parts.specs.Text.{text, Ready};
ghost use Rattle.text.specs.Answer.{Answered};

use facts::Refusal;
use pool::Node;
use pool_check::node_number;
use text_length::left_after_text;
use text_write::write_node;

// Writes the text of a node into a buffer at `at`, if the pool is known to be good and the text to fit. The place after it.
pub fn write_known(p: &[u64], n: Node, buffer: &mut [u8], at: usize) -> usize
    requires ready { Ready p.now n.0 }
    requires room { Room buffer.old at (text p.now n.0) }
    ensures { Wrote buffer.old at (text p.now n.0) result buffer.new }
{
    let mut end = at;
    write_node(p, n, buffer, at, &mut end);
    end
}

// Writes the text of a node to the front of a buffer, and leaves the bytes after it. Gives the text's length. Refuses a bad pool, a node that
// it has not, and a buffer that is shorter than the text, and then writes nothing.
pub fn write_text(
    pool: &[u64],
    count: usize,
    node: usize,
    buffer: &mut [u8],
) -> Result<usize, Refusal>
    ensures { Answered pool.now count node buffer.old (number_of result) (value_or 0 result) buffer.new }
{
    node_number(pool, count, Node(node))?;
    let most = buffer.len() + 1;
    let left = left_after_text(pool, Node(node), most);
    if left == 0 {
        return Err(Refusal::Buffer);
    }
    write_known(pool, Node(node), buffer, 0);
    Ok(most - left)
}
