// The Rust's neon/lower/arith.rs: shift_lane, one lane of the shifts that keep a lane's width.
#![tactic(auto)]

ghost use Rattle.std.specs.Prelude.{[], ◌∷◌, ◌≤◌, ◌<◌};
ghost use Rattle.pool.specs.Growth.{Room};
ghost use Rattle.trees.specs.Trees.{shifted_by};
ghost use Rattle.lower.specs.Builds.{Builds2, BuildsIf};
ghost use Rattle.lower_kinds.specs.Sources.{is_register, AmountIn};

use neon::Lane;
use pool::{Built, Node};
use terms::{BinOp, CmpOp};
use trees::ShiftKind;

pub mod left;
pub mod right;

// A shift by a signed amount: to the right if it is negative.
fn shift_register(
    pool: &mut [u64],
    count: usize,
    rounding: bool,
    saturate: bool,
    signed: bool,
    value: Node,
    amount: Node,
    lane_bits: u64,
) -> Built
    requires room { Room pool.old count 21 }
    requires value_lt_count { (value.0 < count) × (amount.0 < count) × (8 ≤ lane_bits) × (lane_bits ≤ 64) }
    ensures { Builds2 pool.old count pool.new result 21 value lane_bits amount lane_bits lane_bits
        (λ v a. shifted_by (ShiftKind.Register rounding saturate) signed v a lane_bits) (value.0 ∷ amount.0 ∷ []) }
{
    let left = left::left_by(pool, count, saturate, value, amount, lane_bits, signed);
    let zero = pool_nodes::konst(pool, left.count, 0, 0, lane_bits);
    let negated = pool_nodes::bv(pool, zero.count, BinOp::Sub, zero.node, amount);
    let right = right::shift_right(
        pool,
        negated.count,
        value,
        negated.node,
        lane_bits,
        signed,
        rounding,
        Lane::REGISTER_SHIFT_MAX,
    );
    let negative = pool_nodes::compare(pool, right.count, CmpOp::Slt, amount, zero.node);
    pool_nodes::ite(pool, negative.count, negative.node, right.node, left.node)
}

// One destination lane. `amount`, the signed one, is read by the register forms alone.
pub fn shift_lane(
    pool: &mut [u64],
    count: usize,
    kind: ShiftKind,
    signed: bool,
    value: Node,
    amount: Node,
    lane_bits: u64,
) -> Built
    requires room { Room pool.old count 21 }
    requires value_lt_count { (value.0 < count) × (amount.0 < count) × (8 ≤ lane_bits) × (lane_bits ≤ 64) × AmountIn kind lane_bits }
    ensures { BuildsIf pool.old count pool.new result 21 value lane_bits (is_register kind) amount lane_bits lane_bits
        (λ v a. shifted_by kind signed v a lane_bits) }
{
    match kind {
        ShiftKind::LeftImmediate { shift, saturate } => {
            left::left_immediate(pool, count, saturate, value, shift, lane_bits, signed)
        }
        ShiftKind::RightImmediate { shift, rounding } => {
            let by = pool_nodes::konst(pool, count, shift, 0, lane_bits);
            right::shift_right(
                pool, by.count, value, by.node, lane_bits, signed, rounding, shift,
            )
        }
        ShiftKind::Register { rounding, saturate } => {
            shift_register(
                pool, count, rounding, saturate, signed, value, amount, lane_bits,
            )
        }
    }
}
