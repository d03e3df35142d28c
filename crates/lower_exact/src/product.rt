// The doubled product of two signed lanes, and its high half.
ghost use Rattle.std.specs.Prelude.{true, [], ◌∷◌, ◌+◌, ◌*◌, ◌≤◌, ◌<◌};
ghost use Rattle.pool.specs.Growth.{Room};
ghost use Rattle.trees.specs.Arith.{twice, exact_lane};
ghost use Rattle.lower.specs.Builds.{Builds2};

use crate::{join, shift_down};
use pool::{Built, Node};
use terms::BinOp;
use trees::SaturatingKind;
use wide::word::power;

pub fn double(pool: &mut [u64], count: usize, a: Node, b: Node, lane_bits: u64, wide: u64) -> Built
    requires room { Room pool.old count 5 }
    requires a_lt_count { (a.0 < count) × (b.0 < count) × (1 ≤ lane_bits) × (lane_bits ≤ wide) × (wide ≤ 129) }
    ensures { Builds2 pool.old count pool.new result 5 a lane_bits b lane_bits wide
        (λ a b. twice a b wide) (a.0 ∷ b.0 ∷ []) }
{
    let product = join(pool, count, BinOp::Mul, a, true, b, true, lane_bits, wide);
    let one = pool_nodes::konst(pool, product.count, 1, 0, wide);
    pool_nodes::bv(pool, one.count, BinOp::Shl, product.node, one.node)
}

// The product has 2n bits, and doubled one more: there the square of the least number is above the range. The sources are signed.
pub fn exact_high(
    pool: &mut [u64],
    count: usize,
    rounding: bool,
    a: Node,
    b: Node,
    lane_bits: u64,
) -> Built
    requires room { Room pool.old count 9 }
    requires a_lt_count { (a.0 < count) × (b.0 < count) × (1 ≤ lane_bits) × (lane_bits ≤ 32) }
    ensures { Builds2 pool.old count pool.new result 9 a lane_bits b lane_bits (lane_bits * 2 + 1)
        (λ a b. exact_lane (SaturatingKind.DoublingMultiplyHigh rounding) a b lane_bits true) (a.0 ∷ b.0 ∷ []) }
{
    let wide = lane_bits * 2 + 1;
    let half = power(lane_bits - 1);
    let doubled = double(pool, count, a, b, lane_bits, wide);
    shift_down(
        pool,
        doubled.count,
        true,
        rounding,
        doubled.node,
        half,
        lane_bits,
        wide,
    )
}
