// Which registers a term reads (document 02, S-4): past the pool check one word of one node.
#![tactic(auto)]

ghost use Rattle.facts.specs.Answer.{number_of, value_or};
ghost use Rattle.pool_registers.specs.Answer.{Named};

use facts::Refusal;
use pool::Node;
use pool::words::set_of;
use pool_check::node_number;

// The registers beneath a node, bit r for register r. Refuses a bad pool, and then a node that it has not.
#[tactic(auto, using(crate::proofs::Walk::refused, crate::proofs::Walk::inside, crate::proofs::Walk::told,))]
pub fn registers_of(pool: &[u64], count: usize, node: usize) -> Result<u64, Refusal>
    ensures { Named pool.now count node (number_of result) (value_or 0 result) }
{
    node_number(pool, count, Node(node))?;
    Ok(set_of(pool, Node(node)))
}
