// The Rust's neon/lower/arith.rs: saturating_shift_left, and the left shifts of shift_lane.
ghost use Rattle.std.specs.Prelude.{true, [], ◌∷◌, ◌≤◌, ◌<◌};
ghost use Rattle.pool.specs.Growth.{Room};
ghost use Rattle.trees.specs.declared.SaturateTo.{SaturateTo};
ghost use Rattle.trees.specs.Arith.{shift_bound, saturating_shift_left, left_by};
ghost use Rattle.trees.specs.Trees.{left_immediate};
ghost use Rattle.lower.specs.Builds.{Builds1, Builds2};

use lower_kinds::operators::shift_op;
use pool::{Built, Node};
use terms::{BinOp, CmpOp};
use trees::SaturateTo;
use wide::word::{power, unsigned_max};

// The end of the range that a saturating left shift clamps to: the one on the side of its sign.
fn shift_bound(pool: &mut [u64], count: usize, value: Node, lane_bits: u64, signed: bool) -> Built
    requires room { Room pool.old count 5 }
    requires value_lt_count { (value.0 < count) × (1 ≤ lane_bits) × (lane_bits ≤ 64) }
    ensures { Builds1 pool.old count pool.new result 5 value lane_bits lane_bits (λ v. shift_bound v lane_bits signed) [] }
{
    if signed {
        let magnitude = power(lane_bits - 1);
        let zero = pool_nodes::konst(pool, count, 0, 0, lane_bits);
        let negative = pool_nodes::compare(pool, zero.count, CmpOp::Slt, value, zero.node);
        let low = pool_nodes::konst(pool, negative.count, magnitude, 0, lane_bits);
        let high = pool_nodes::konst(pool, low.count, magnitude - 1, 0, lane_bits);
        return pool_nodes::ite(pool, high.count, negative.node, low.node, high.node);
    }
    pool_nodes::konst(pool, count, unsigned_max(lane_bits), 0, lane_bits)
}

// A left shift that clamps. A shift back, which goes by the value's sign, restores the value exactly when no bit of it was lost; so too for an
// amount of a lane's bits or more, which only 0 survives, and only 0 does not saturate. The exact product is not built: the amount may be
// in a register, and the product then has no width that is known.
pub fn saturating_shift_left(
    pool: &mut [u64],
    count: usize,
    value: Node,
    amount: Node,
    lane_bits: u64,
    signed: bool,
) -> Built
    requires room { Room pool.old count 9 }
    requires value_lt_count { (value.0 < count) × (amount.0 < count) × (1 ≤ lane_bits) × (lane_bits ≤ 64) }
    ensures { Builds2 pool.old count pool.new result 9 value lane_bits amount lane_bits lane_bits
        (λ v a. saturating_shift_left v a lane_bits signed) (value.0 ∷ amount.0 ∷ []) }
{
    let shifted = pool_nodes::bv(pool, count, BinOp::Shl, value, amount);
    let op = shift_op(signed);
    let restored = pool_nodes::bv(pool, shifted.count, op, shifted.node, amount);
    let same = pool_nodes::compare(pool, restored.count, CmpOp::Eq, restored.node, value);
    let bound = shift_bound(pool, same.count, value, lane_bits, signed);
    pool_nodes::ite(pool, bound.count, same.node, shifted.node, bound.node)
}

// SQSHLU: the exact product, clamped into the unsigned range. The shift back says nothing here: it would leave a negative value as it is. One
// bit more than the product has keeps the upper bound positive if it is compared signed.
fn exact_shift_left(
    pool: &mut [u64],
    count: usize,
    value: Node,
    shift: u64,
    lane_bits: u64,
) -> Built
    requires room { Room pool.old count 10 }
    requires value_lt_count { (value.0 < count) × (shift < lane_bits) × (lane_bits ≤ 64) }
    ensures { Builds1 pool.old count pool.new result 10 value lane_bits lane_bits
        (λ v. left_immediate (Some SaturateTo.SignedToUnsigned) v shift lane_bits true) (value.0 ∷ []) }
{
    let wide = lane_bits + shift + 1;
    let exact = lower_exact::shift_up(pool, count, value, shift, lane_bits, wide);
    lower::arith::clamp(
        pool,
        exact.count,
        exact.node,
        wide,
        lane_bits,
        SaturateTo::SignedToUnsigned,
    )
}

// A left shift by an immediate that clamps.
fn saturated_left(
    pool: &mut [u64],
    count: usize,
    to: SaturateTo,
    value: Node,
    shift: u64,
    lane_bits: u64,
    signed: bool,
) -> Built
    requires room { Room pool.old count 10 }
    requires value_lt_count { (value.0 < count) × (shift < lane_bits) × (lane_bits ≤ 64) }
    ensures { Builds1 pool.old count pool.new result 10 value lane_bits lane_bits
        (λ v. left_immediate (Some to) v shift lane_bits signed) (value.0 ∷ []) }
{
    if let SaturateTo::SignedToUnsigned = to {
        return exact_shift_left(pool, count, value, shift, lane_bits);
    }
    let by = pool_nodes::konst(pool, count, shift, 0, lane_bits);
    saturating_shift_left(pool, by.count, value, by.node, lane_bits, signed)
}

pub fn left_immediate(
    pool: &mut [u64],
    count: usize,
    saturate: Option<SaturateTo>,
    value: Node,
    shift: u64,
    lane_bits: u64,
    signed: bool,
) -> Built
    requires room { Room pool.old count 10 }
    requires value_lt_count { (value.0 < count) × (shift < lane_bits) × (lane_bits ≤ 64) }
    ensures { Builds1 pool.old count pool.new result 10 value lane_bits lane_bits
        (λ v. left_immediate saturate v shift lane_bits signed) (value.0 ∷ []) }
{
    match saturate {
        None => {
            let by = pool_nodes::konst(pool, count, shift, 0, lane_bits);
            pool_nodes::bv(pool, by.count, BinOp::Shl, value, by.node)
        }
        Some(to) => saturated_left(pool, count, to, value, shift, lane_bits, signed),
    }
}

// By an amount in a register.
pub fn left_by(
    pool: &mut [u64],
    count: usize,
    saturate: bool,
    value: Node,
    amount: Node,
    lane_bits: u64,
    signed: bool,
) -> Built
    requires room { Room pool.old count 9 }
    requires value_lt_count { (value.0 < count) × (amount.0 < count) × (1 ≤ lane_bits) × (lane_bits ≤ 64) }
    ensures { Builds2 pool.old count pool.new result 9 value lane_bits amount lane_bits lane_bits
        (λ v a. left_by saturate v a lane_bits signed) (value.0 ∷ amount.0 ∷ []) }
{
    if saturate {
        return saturating_shift_left(pool, count, value, amount, lane_bits, signed);
    }
    pool_nodes::bv(pool, count, BinOp::Shl, value, amount)
}
