// The Rust's neon/lower/arith.rs: shift_right.
ghost use Rattle.std.specs.Prelude.{◌≡◌, true, [], ◌∷◌, ◌+◌, ◌≤◌, ◌<◌};
ghost use Rattle.pool.specs.Growth.{Room};
ghost use Rattle.trees.specs.Arith.{rounding_bits};
ghost use Rattle.trees.specs.Trees.{shift_right};
ghost use Rattle.lower.specs.Builds.{Builds2};

use lower_kinds::operators::shift_op;
use pool::{Bit, Built, Node};
use terms::BinOp;

// The width of a rounding shift's sum: one bit above the lane and the largest amount, so that the half that is added is below the sign.
fn rounding_bits(lane_bits: u64, max_shift: u64) -> u64
    requires { (lane_bits ≤ 64) × (max_shift ≤ 128) }
    ensures { (result ≡ rounding_bits lane_bits max_shift) × (lane_bits + 1 ≤ result) × (max_shift + 1 ≤ result) × (result ≤ 129) }
{
    if lane_bits < max_shift {
        return max_shift + 1;
    }
    lane_bits + 1
}

// A right shift that adds half a unit before the low bits are dropped; at the width of a lane that sum could carry out of it.
fn shift_right_rounding(
    pool: &mut [u64],
    count: usize,
    value: Node,
    amount: Node,
    lane_bits: u64,
    signed: bool,
    max_shift: u64,
) -> Built
    requires room { Room pool.old count 8 }
    requires value_lt_count { (value.0 < count) × (amount.0 < count) × (1 ≤ lane_bits) × (lane_bits ≤ 64) × (max_shift ≤ 128) }
    ensures { Builds2 pool.old count pool.new result 8 value lane_bits amount lane_bits lane_bits
        (λ v a. shift_right v a lane_bits signed true max_shift) (value.0 ∷ amount.0 ∷ []) }
{
    let wide = rounding_bits(lane_bits, max_shift);
    let wide_amount = pool_nodes::zero_ext(pool, count, amount, wide);
    let one = pool_nodes::konst(pool, wide_amount.count, 1, 0, wide);
    let less = pool_nodes::bv(pool, one.count, BinOp::Sub, wide_amount.node, one.node);
    let half = pool_nodes::bv(pool, less.count, BinOp::Shl, one.node, less.node);
    let wide_value = lower::extend(pool, half.count, value, wide, signed);
    let sum = pool_nodes::bv(
        pool,
        wide_value.count,
        BinOp::Add,
        wide_value.node,
        half.node,
    );
    let op = shift_op(signed);
    let shifted = pool_nodes::bv(pool, sum.count, op, sum.node, wide_amount.node);
    pool_nodes::extract(
        pool,
        shifted.count,
        shifted.node,
        Bit(lane_bits - 1),
        Bit(0),
    )
}

pub fn shift_right(
    pool: &mut [u64],
    count: usize,
    value: Node,
    amount: Node,
    lane_bits: u64,
    signed: bool,
    rounding: bool,
    max_shift: u64,
) -> Built
    requires room { Room pool.old count 8 }
    requires value_lt_count { (value.0 < count) × (amount.0 < count) × (1 ≤ lane_bits) × (lane_bits ≤ 64) × (max_shift ≤ 128) }
    ensures { Builds2 pool.old count pool.new result 8 value lane_bits amount lane_bits lane_bits
        (λ v a. shift_right v a lane_bits signed rounding max_shift) (value.0 ∷ amount.0 ∷ []) }
{
    if rounding {
        return shift_right_rounding(pool, count, value, amount, lane_bits, signed, max_shift);
    }
    let op = shift_op(signed);
    pool_nodes::bv(pool, count, op, value, amount)
}
