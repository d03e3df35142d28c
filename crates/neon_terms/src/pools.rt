// Operations that make one pool of others.
ghost use Rattle.canonical_write.specs.Canonise.{Answered as Canonised};
ghost use Rattle.join.specs.Join.{Answered as Joined};

use crate::answers::give;
use pool::Node;

// Returns the number; the Eq and the count of the third pool go to `node` and `count`.
#[unsafe(no_mangle)]
pub extern "C" fn neon_join(
    first: &[u64],
    first_count: usize,
    a: usize,
    second: &[u64],
    second_count: usize,
    b: usize,
    joined: &mut [u64],
    node: &mut usize,
    count: &mut usize,
) -> u64
    ensures { Joined first.now first_count second.now second_count a b joined.old joined.new
        (record { number = result; node = node.new; count = count.new }) }
{
    match join::join(first, first_count, second, second_count, a, b, joined) {
        Ok(pool) => {
            *node = pool.node.0;
            *count = pool.count;
            0
        }
        Err(refusal) => {
            *node = Node::NONE;
            *count = 0;
            u64::from(refusal)
        }
    }
}

// Returns the number; the count of the canonical pool goes to `after`, and its last node is the root.
#[unsafe(no_mangle)]
pub extern "C" fn neon_canonical(
    pool: &[u64],
    count: usize,
    root: usize,
    out: &mut [u64],
    after: &mut usize,
) -> u64
    ensures { Canonised pool.now count root out.old out.new (record { number = result; count = after.new }) }
{
    give(canonical_write::canonise(pool, count, root, out), 0, after)
}
