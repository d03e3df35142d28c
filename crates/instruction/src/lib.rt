// One instruction: refused with a number of document 01's table, or lowered to its term.
#![tactic(auto)]

ghost use Rattle.instruction.specs.Lowering.{Answers, lowering};

use facts::Refusal;
use instruction_check::instruction_number;
use pool::{Built, Node};

// d, n and m are the nodes of the old destination and the two sources, 65,535 for one that is not read. The answer is the node of the
// term, and the count of the pool after it; a refusal leaves the pool.
pub fn lower_instruction(
    pool: &mut [u64],
    count: usize,
    operation: u64,
    arrangement: u64,
    i: u64,
    d: usize,
    n: usize,
    m: usize,
) -> Result<Built, Refusal>
    ensures { Answers pool.old count pool.new (lowering count result) operation arrangement i d n m }
{
    instruction_number(
        pool,
        count,
        operation,
        arrangement,
        i,
        Node(d),
        Node(n),
        Node(m),
    )?;
    let built = lower_neon::lower_form(
        pool,
        count,
        operation,
        arrangement,
        i,
        Node(d),
        Node(n),
        Node(m),
    );
    Ok(built)
}
