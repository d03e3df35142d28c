// Whether a shift saturates.
ghost use Rattle.std.specs.Prelude.{true, ◌≡◌, [], ◌∷◌, ◌≤◌, ◌<◌};
ghost use Rattle.pool.specs.Growth.{Room};
ghost use Rattle.trees.specs.declared.SaturateTo.{SaturateTo};
ghost use Rattle.lower.specs.Builds.{Builds1, Builds2, BuildsIf};
ghost use Rattle.lower_kinds.specs.Sources.{is_register, AmountIn};
ghost use Rattle.saturation.specs.Bits.{lost as lostTree, left_bit, shifted_bit, saturable_to, saturable_shift};

use lower_kinds::operators::shift_op;
use pool::{Built, Node};
use terms::{BinOp, CmpOp};
use trees::{SaturateTo, ShiftKind};

// Whether a shift to the left, undone, gives another value.
fn lost(
    pool: &mut [u64],
    count: usize,
    value: Node,
    amount: Node,
    lane_bits: u64,
    signed: bool,
) -> Built
    requires room { Room pool.old count 6 }
    requires value_lt_count { (value.0 < count) × (amount.0 < count) × (1 ≤ lane_bits) × (lane_bits ≤ 64) }
    ensures { Builds2 pool.old count pool.new result 6 value lane_bits amount lane_bits 1
        (λ v a. lostTree v a signed) (value.0 ∷ amount.0 ∷ []) }
{
    let op = shift_op(signed);
    let shifted = pool_nodes::bv(pool, count, BinOp::Shl, value, amount);
    let restored = pool_nodes::bv(pool, shifted.count, op, shifted.node, amount);
    let same = pool_nodes::compare(pool, restored.count, CmpOp::Eq, restored.node, value);
    let zero = pool_nodes::konst(pool, same.count, 0, 0, 1);
    let one = pool_nodes::konst(pool, zero.count, 1, 0, 1);
    pool_nodes::ite(pool, one.count, same.node, zero.node, one.node)
}

// SQSHLU: the exact product against the unsigned range.
fn exact_left_bit(pool: &mut [u64], count: usize, value: Node, shift: u64, lane_bits: u64) -> Built
    requires room { Room pool.old count 12 }
    requires value_lt_count { (value.0 < count) × (shift < lane_bits) × (lane_bits ≤ 64) }
    ensures { Builds1 pool.old count pool.new result 12 value lane_bits 1
        (λ v. left_bit (Some SaturateTo.SignedToUnsigned) v shift lane_bits true) (value.0 ∷ []) }
{
    let wide = lane_bits + shift + 1;
    let exact = lower_exact::shift_up(pool, count, value, shift, lane_bits, wide);
    crate::clip::clip(
        pool,
        exact.count,
        exact.node,
        wide,
        lane_bits,
        SaturateTo::SignedToUnsigned,
    )
}

// By an immediate.
fn left_bit(
    pool: &mut [u64],
    count: usize,
    to: SaturateTo,
    value: Node,
    shift: u64,
    lane_bits: u64,
    signed: bool,
) -> Built
    requires room { Room pool.old count 12 }
    requires value_lt_count { (value.0 < count) × (shift < lane_bits) × (lane_bits ≤ 64) }
    ensures { Builds1 pool.old count pool.new result 12 value lane_bits 1
        (λ v. left_bit (Some to) v shift lane_bits signed) (value.0 ∷ []) }
{
    if let SaturateTo::SignedToUnsigned = to {
        return exact_left_bit(pool, count, value, shift, lane_bits);
    }
    let by = pool_nodes::konst(pool, count, shift, 0, lane_bits);
    lost(pool, by.count, value, by.node, lane_bits, signed)
}

// The ones that clamp; there are no others here.
fn left_some(
    pool: &mut [u64],
    count: usize,
    saturate: Option<SaturateTo>,
    value: Node,
    shift: u64,
    lane_bits: u64,
    signed: bool,
) -> Built
    requires room { Room pool.old count 12 }
    requires value_lt_count { (value.0 < count) × (shift < lane_bits) × (lane_bits ≤ 64) × (saturable_to saturate ≡ true) }
    ensures { Builds1 pool.old count pool.new result 12 value lane_bits 1
        (λ v. left_bit saturate v shift lane_bits signed) (value.0 ∷ []) }
{
    match saturate {
        None => Built { node: value, count },
        Some(to) => left_bit(pool, count, to, value, shift, lane_bits, signed),
    }
}

// By a signed amount: a shift to the right does not saturate.
fn register_bit(
    pool: &mut [u64],
    count: usize,
    rounding: bool,
    signed: bool,
    value: Node,
    amount: Node,
    lane_bits: u64,
) -> Built
    requires room { Room pool.old count 10 }
    requires value_lt_count { (value.0 < count) × (amount.0 < count) × (8 ≤ lane_bits) × (lane_bits ≤ 64) }
    ensures { Builds2 pool.old count pool.new result 10 value lane_bits amount lane_bits 1
        (λ v a. shifted_bit (ShiftKind.Register rounding true) signed v a lane_bits) (value.0 ∷ amount.0 ∷ []) }
{
    let left = lost(pool, count, value, amount, lane_bits, signed);
    let zero = pool_nodes::konst(pool, left.count, 0, 0, lane_bits);
    let negative = pool_nodes::compare(pool, zero.count, CmpOp::Slt, amount, zero.node);
    let none = pool_nodes::konst(pool, negative.count, 0, 0, 1);
    pool_nodes::ite(pool, none.count, negative.node, none.node, left.node)
}

// A lane of the shifts that can saturate. `amount`, the signed one, is read by the register forms alone.
pub fn shift_bit(
    pool: &mut [u64],
    count: usize,
    kind: ShiftKind,
    signed: bool,
    value: Node,
    amount: Node,
    lane_bits: u64,
) -> Built
    requires room { Room pool.old count 12 }
    requires value_lt_count { (value.0 < count) × (amount.0 < count) × (8 ≤ lane_bits) × (lane_bits ≤ 64) × AmountIn kind lane_bits × (saturable_shift kind ≡ true) }
    ensures { BuildsIf pool.old count pool.new result 12 value lane_bits (is_register kind) amount lane_bits 1
        (λ v a. shifted_bit kind signed v a lane_bits) }
{
    match kind {
        ShiftKind::LeftImmediate { shift, saturate } => {
            left_some(pool, count, saturate, value, shift, lane_bits, signed)
        }
        ShiftKind::RightImmediate {
            shift: _,
            rounding: _,
        } => Built { node: value, count },
        ShiftKind::Register {
            rounding,
            saturate: _,
        } => register_bit(pool, count, rounding, signed, value, amount, lane_bits),
    }
}
