// The Rust's neon/lower/arith.rs: bitwise_unary_lane, the functions of a lane's own bits.
#![tactic(auto)]

ghost use Rattle.std.specs.Prelude.{[], ◌∷◌, ◌+◌, ◌*◌, ◌≤◌, ◌<◌};
ghost use Rattle.pool.specs.Growth.{Room};
ghost use Rattle.trees.specs.Trees.{bitwise_unary_lane};
ghost use Rattle.lower_bitwise_unary_lane.specs.Layers.{BuildsLane};

use pool::{Bit, Built, Node};
use trees::BitwiseUnary;

pub mod counts;

// One destination lane: the bits from `base` on of `value`, which is no Extract, are the source lane.
pub fn bitwise_unary_lane(
    pool: &mut [u64],
    count: usize,
    kind: BitwiseUnary,
    value: Node,
    base: Bit,
    lane_bits: u64,
) -> Built
    requires room { Room pool.old count (5 * lane_bits + 1) }
    requires value_lt_count { (value.0 < count) × (2 ≤ lane_bits) × (lane_bits ≤ 64) × (base.0 + lane_bits ≤ 129) }
    ensures { BuildsLane pool.old count pool.new result (5 * lane_bits + 1) value base.0 lane_bits lane_bits
        (λ v. bitwise_unary_lane kind v lane_bits) (value.0 ∷ []) }
{
    match kind {
        BitwiseUnary::PopulationCount => counts::population_count(
            pool, count, value, base, lane_bits,
        ),
        BitwiseUnary::LeadingZeros => counts::leading_zeros(pool, count, value, base, lane_bits),
        BitwiseUnary::LeadingSignBits => counts::leading_sign_bits(
            pool, count, value, base, lane_bits,
        ),
        BitwiseUnary::ReverseBits => counts::reverse_bits(pool, count, value, base, lane_bits),
    }
}
