// Whether a refutation shows that bits of a node of one pool and of a node of another are equal at every start.
#![tactic(auto)]

ghost use Rattle.std.specs.Prelude.{◌&&◌, ◌≡◌, eqb, length};
ghost use Rattle.refutation_check.specs.Answer.{checked};
ghost use Rattle.equal.specs.Equal.{Answered};

use facts::{Refusal, RefusedAt};
use gates::Literal;
use gates_question::question;
use pool::Node;
use refutation_check::check_refutation;

// Whether the literal is the constant false and the refutation is empty.
fn nothing_to_refute(literal: u64, refutation: &[u32]) -> bool
    ensures { result ≡ (eqb literal 0 && eqb (length refutation.now) 0) }
{
    if literal == 0 {
        return refutation.len() == 0;
    }
    false
}

// Builds the graph of both pools, and checks the refutation of the literal that is true if bits hi to lo of the nodes a and b differ. The position of a
// refusal is the refused step, and 0 if no step is refused.
pub fn equal(
    first: &[u64],
    n: usize,
    a: Node,
    second: &[u64],
    m: usize,
    b: Node,
    hi: usize,
    lo: usize,
    refutation: &[u32],
    graph: &mut [u64],
    table: &mut [u64],
    bits: &mut [u64],
    marks: &mut [u64],
    starts: &mut [u64],
) -> Result<(), RefusedAt>
    ensures { Answered first.now n a.0 second.now m b.0 hi lo refutation.now graph.old
        graph.new table.old table.new bits.old bits.new (length marks.old)
        (length starts.old) (checked result) }
{
    let made = match question(first, n, a, second, m, b, hi, lo, graph, table, bits) {
        Ok(made) => made,
        Err(refusal) => return Err(RefusedAt {
            refusal,
            position: 0,
        }),
    };
    let literal = made.literal;
    let answer = check_refutation(
        graph,
        made.count,
        Literal(literal),
        refutation,
        marks,
        starts,
    );
    if !nothing_to_refute(literal, refutation) {
        return answer;
    }
    match answer {
        Ok(()) => Ok(()),
        Err(refused) => match refused.refusal {
            Refusal::Step => Ok(()),
            _ => Err(refused),
        },
    }
}
