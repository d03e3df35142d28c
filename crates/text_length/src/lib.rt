// The length of a node's text up to a ceiling: by a pass over the text that stops once the ceiling is passed, or node by node.
#![tactic(auto)]

ghost use Rattle.std.specs.Prelude.{◌≡◌, true, cond, ◌+◌, ◌-◌, ◌≤◌, ◌<◌, min, eqb, length};
ghost use Rattle.facts.specs.Answer.{number_of, value_or};
ghost use Rattle.pool.specs.Node.{kind_number};
ghost use Rattle.text_operators.specs.Between.{Joined, between_text};
ghost use Rattle.text_parts.specs.Text.{text, Ready, open_text, end_text, single};
ghost use Rattle.text_length.specs.Answer.{Measured};
ghost use Rattle.text_length.specs.Known.{Registers};

use facts::Refusal;
use pool::Node;
use pool::words::{Kind, kind_of, width_of};
use pool_check::node_number;
use pool_fields::{cut_hi, cut_lo, first, high, left, low, right};
use text_digits::{decimal_length, left_after_hex};
use text_operators::operator_length;
use text_parts::is_single;

pub mod nodes;

// From this number of characters on a length is summed up node by node.
const BY_NODES: usize = 2097152;

// What is left of b when the length of a Var's or a Const's text is taken off it, and 0 where the text is longer.
// k is the number of the node's kind.
fn left_after_leaf(p: &[u64], n: Node, k: u64, b: usize) -> usize
    requires { Ready p.now n.0 × (k ≡ kind_number p.now n.0) × (k < 3) }
    ensures { result ≡ b - length (text p.now n.0) }
{
    if k == Kind::VAR {
        return b.saturating_sub(decimal_length(low(p, n)) + 1);
    }
    let c = b.saturating_sub(decimal_length(width_of(p, n)) + 3);
    left_after_hex(low(p, n), high(p, n), c)
}

// The same for what stands about the operand of an Extract and of an extension.
fn left_after_single(p: &[u64], n: Node, k: u64, b: usize) -> usize
    requires { Ready p.now n.0 × (k ≡ kind_number p.now n.0) × (single k ≡ true) }
    ensures { result ≡ b - (length (open_text k) + length (end_text p.now n.0)) }
{
    if k == Kind::EXTRACT {
        let c = b.saturating_sub(decimal_length(cut_hi(p, n).0) + 3);
        return c.saturating_sub(decimal_length(cut_lo(p, n).0));
    }
    b.saturating_sub(decimal_length(width_of(p, n)) + 8)
}

// How many characters of its own a node with two operands has, or an Ite. By comparisons: the word of `operator_characters` would be kept
// in a register, 16 bytes more of stack at each level of nesting.
fn own_length(k: u64) -> usize
    requires { Joined k }
    ensures { result ≡ length (open_text k) + cond (eqb k 15) 2 0 + length (between_text k) + 1 }
{
    if k < Kind::ITE {
        return operator_length(k) + 2;
    }
    if k == Kind::ITE { 9 } else { 10 }
}

// What is left of b when the length of a node's text is taken off it, and 0 where the text is longer. Its own characters
// are taken off before its operands', so a text of any length is given up once b is used up. The pool is behind a second
// reference, as in `write_term`.
fn left_after_node(p: &&[u64], n: Node, b: usize) -> usize
    requires { Ready p.now.now n.0 }
    ensures { result ≡ b - length (text p.now.now n.0) }
{
    if b == 0 {
        return 0;
    }
    let k = kind_of(*p, n);
    if k < Kind::ADD {
        return left_after_leaf(*p, n, k, b);
    }
    if is_single(k) {
        return left_after_node(p, first(*p, n), left_after_single(*p, n, k, b));
    }
    let mut c = b.saturating_sub(own_length(k));
    if k == Kind::ITE {
        c = left_after_node(p, first(*p, n), c);
    }
    let d = left_after_node(p, left(*p, n), c);
    left_after_node(p, right(*p, n), d)
}

// As `left_after_node`, of a plain slice. Its time grows with b.
pub fn left_after_text(p: &[u64], n: Node, b: usize) -> usize
    requires { Ready p.now n.0 }
    ensures { result ≡ b - length (text p.now n.0) }
{
    left_after_node(&p, n, b)
}

// The length of a node's text, or one more than the ceiling where the text is longer, of a pool that is known to be good.
pub fn length_to(p: &[u64], n: Node, ceiling: u32) -> u64
    requires { Ready p.now n.0 }
    ensures { result ≡ min (length (text p.now n.0)) (ceiling + 1) }
{
    let most = (ceiling as usize) + 1;
    if n.0 < 65536 {
        if BY_NODES <= most {
            return nodes::length_of_many(p, n, most) as u64;
        }
    }
    let left = left_after_text(p, n, most);
    (most - left) as u64
}

// The same of a pool that begins with the registers: node by node, which for the pool of a block of one is cheaper.
pub fn length_in_block(p: &[u64], n: Node, ceiling: u32) -> u64
    requires ready { Ready p.now n.0 × Registers p.now }
    requires le_ceiling { 3 ≤ ceiling }
    ensures { result ≡ min (length (text p.now n.0)) (ceiling + 1) }
{
    let bound = (ceiling as usize) + 1;
    if (32 <= n.0) & (n.0 < 256) {
        return nodes::length_past_registers(p, n, bound) as u64;
    }
    if n.0 < 1024 {
        return nodes::length_of_few(p, n, bound) as u64;
    }
    length_to(p, n, ceiling)
}

// The length of a node's text, or one more than the ceiling where the text is longer. Refuses a bad pool, and then a node that it has not.
#[tactic(auto, using(crate::proofs::Answers::ready, crate::proofs::Answers::unmeasured, crate::proofs::Answers::measured,))]
pub fn text_length(pool: &[u64], count: usize, node: usize, ceiling: u32) -> Result<u64, Refusal>
    ensures { Measured pool.now count node ceiling (number_of result) (value_or 0 result) }
{
    node_number(pool, count, Node(node))?;
    Ok(length_to(pool, Node(node), ceiling))
}
