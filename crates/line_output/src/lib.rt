// What is written for a line (document 01, "Text and program"): a number, or 0 and a text. The Rust has no counterpart.
#![tactic(auto)]

ghost use Rattle.std.specs.Prelude.{true, [], ◌∷◌, ◌++◌, ◌≡◌, ◌+◌, ◌≤◌, ◌<◌, length};
ghost use Rattle.pool.specs.Rules.{pool_ok};
ghost use Rattle.line_columns.specs.Columns.{columns};
ghost use Rattle.text_digits.specs.Writing.{Wrote};
ghost use Rattle.text_parts.specs.Text.{text};
ghost use Rattle.text_length.specs.Known.{Registers};
ghost use Rattle.line_output.specs.Answer.{answer_room, room_number, written};

use line_columns::put_columns;
use pool::Node;
use text::write_known;
use text_digits::put;
use text_length::length_in_block;

// The most bytes that an answer has: a number, a blank, a text of at most 65,536 bytes, a newline.
pub const ANSWER_ROOM: usize = 65542;

// Writes a number and a newline.
pub fn put_refusal(number: u64, out: &mut [u8], at: usize) -> usize
    requires number_bound { number < 10000 }
    requires answer_room_in_bounds { at + answer_room ≤ length out.old }
    ensures { Wrote out.old at (columns number ++ (10 ∷ [])) result out.new }
{
    let i = put_columns(number, out, at);
    put(b"\n", out, i)
}

// Writes the answer of an accepted record: 0 and the text of a node, or 9. The length is asked for, then the text is written. The pool begins
// with the registers.
pub fn put_term(pool: &[u64], count: usize, node: Node, out: &mut [u8], at: usize) -> usize
    requires count_value { pool_ok pool.now count ≡ true }
    requires node_lt_count { (node.0 < count) × Registers pool.now }
    requires answer_room_in_bounds { at + answer_room ≤ length out.old }
    ensures { Wrote out.old at (written (room_number (text pool.now node.0)) (text pool.now node.0)) result out.new }
{
    let length = length_in_block(pool, node, 65536);
    if 65536 < length {
        return put_refusal(9, out, at);
    }
    let i = put_columns(0, out, at);
    let from = put(b" ", out, i);
    let end = write_known(pool, node, out, from);
    put(b"\n", out, end)
}
