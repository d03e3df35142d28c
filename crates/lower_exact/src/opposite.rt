// The exact values of SQNEG and SQABS.
ghost use Rattle.std.specs.Prelude.{true, [], ◌∷◌, ◌+◌, ◌≤◌, ◌<◌};
ghost use Rattle.pool.specs.Growth.{Room};
ghost use Rattle.trees.specs.Arith.{negated as negatedTree, exact_lane};
ghost use Rattle.lower.specs.Builds.{Builds1};

use pool::{Built, Node};
use terms::{BinOp, CmpOp};
use trees::SaturatingKind;

// SQNEG's value, or SQABS's.
fn negated(pool: &mut [u64], count: usize, negate: bool, value: Node, wide: u64) -> Built
    requires room { Room pool.old count 4 }
    requires value_lt_count { (value.0 < count) × (1 ≤ wide) × (wide ≤ 129) }
    ensures { Builds1 pool.old count pool.new result 4 value wide wide (λ v. negatedTree negate v wide) (value.0 ∷ []) }
{
    let zero = pool_nodes::konst(pool, count, 0, 0, wide);
    let opposite = pool_nodes::bv(pool, zero.count, BinOp::Sub, zero.node, value);
    if negate {
        return opposite;
    }
    let negative = pool_nodes::compare(pool, opposite.count, CmpOp::Slt, value, zero.node);
    pool_nodes::ite(pool, negative.count, negative.node, opposite.node, value)
}

// One bit more holds the least number's opposite. The source is signed.
pub fn exact_unary(pool: &mut [u64], count: usize, negate: bool, a: Node, lane_bits: u64) -> Built
    requires room { Room pool.old count 5 }
    requires a_lt_count { (a.0 < count) × (1 ≤ lane_bits) × (lane_bits ≤ 64) }
    ensures { Builds1 pool.old count pool.new result 5 a lane_bits (lane_bits + 1)
        (λ a. exact_lane (SaturatingKind.Unary negate) a a lane_bits true) (a.0 ∷ []) }
{
    let wide = lane_bits + 1;
    let value = lower::extend(pool, count, a, wide, true);
    negated(pool, value.count, negate, value.node, wide)
}
