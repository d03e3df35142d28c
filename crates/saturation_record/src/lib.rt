// The block's bit after a record: over the whole registers that it reads, and the bit before it.
#![tactic(auto)]

ghost use Rattle.std.specs.Prelude.{◌≡◌, ◌<◌};
ghost use Rattle.pool.specs.Growth.{Room};
ghost use Rattle.neon.specs.Refusal.{form_number};
ghost use Rattle.saturation.specs.Bits.{saturable as saturableTree, saturable_kind, saturable_to, saturable_shift};
ghost use Rattle.saturation_bits.specs.Lanes.{bits_most};
ghost use Rattle.saturation_record.specs.Record.{RecordBit};

use lower_exact::kind_to;
use pool::{Built, Node};
use saturation_bits::instruction_bit;
use trees::{NeonOp, SaturateTo, SaturatingKind, ShiftKind};

fn clamps(saturate: Option<SaturateTo>) -> bool
    ensures { result ≡ saturable_to saturate }
{
    match saturate {
        None => false,
        Some(_) => true,
    }
}

fn saturable_shift(kind: ShiftKind) -> bool
    ensures { result ≡ saturable_shift kind }
{
    match kind {
        ShiftKind::LeftImmediate { shift: _, saturate } => clamps(saturate),
        ShiftKind::RightImmediate {
            shift: _,
            rounding: _,
        } => false,
        ShiftKind::Register {
            rounding: _,
            saturate,
        } => saturate,
    }
}

fn saturable_kind(kind: SaturatingKind) -> bool
    ensures { result ≡ saturable_kind kind }
{
    let range = kind_to(kind);
    clamps(range)
}

// Operations 2 to 4, 13 to 16, 19 to 22, 27 to 29 and 32 to 55.
fn saturable(op: NeonOp) -> bool
    ensures { result ≡ saturableTree op }
{
    match op {
        NeonOp::Shift { kind, signed: _ } => saturable_shift(kind),
        NeonOp::ShiftInsert { left: _, shift: _ } => false,
        NeonOp::MixedSignAdd {
            destination_signed: _,
        } => true,
        NeonOp::DoublingLong {
            combine: _,
            upper: _,
            by_element: _,
        } => true,
        NeonOp::Saturating {
            kind,
            signed_sources: _,
            upper: _,
        } => saturable_kind(kind),
        NeonOp::BitwiseUnary(_) => false,
        NeonOp::AbsoluteDifference {
            signed: _,
            accumulate: _,
        } => false,
        NeonOp::HighNarrow {
            subtract: _,
            rounding: _,
            upper: _,
        } => false,
    }
}

// A legal form, on the nodes of whole registers.
pub fn record_bit(
    pool: &mut [u64],
    count: usize,
    operation: u64,
    arrangement: u64,
    i: u64,
    d: Node,
    first: Node,
    second: Node,
    before: Node,
) -> Built
    requires room { Room pool.old count bits_most }
    requires i_value { form_number operation arrangement i 0 ≡ 0 }
    requires d_lt_count { (d.0 < count) × (first.0 < count) × (second.0 < count) × (before.0 < count) }
    ensures { RecordBit pool.old count pool.new result operation arrangement i d first second before }
{
    let shape = lower_shape::shape(operation, arrangement, i);
    let op = shape.op;
    if saturable(op) {
        return instruction_bit(pool, count, shape, first, second, d, before);
    }
    Built {
        node: before,
        count,
    }
}
