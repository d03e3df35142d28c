// The kinds of the Rust's neon.rs and neon/arith.rs, as far as the 67 operations use them. The terms that the Rust builds from
// them are in specs/.
#![tactic(auto)]

use neon::Lane;
use terms::BinOp;

// The range that a value is clamped into.
#[derive(Clone, Copy)]
pub enum SaturateTo {
    Signed,
    Unsigned,
    SignedToUnsigned,
}

// The shifts whose source and destination lanes have one width.
#[derive(Clone, Copy)]
pub enum ShiftKind {
    LeftImmediate {
        shift: u64,
        saturate: Option<SaturateTo>,
    },
    RightImmediate {
        shift: u64,
        rounding: bool,
    },
    Register {
        rounding: bool,
        saturate: bool,
    },
}

// The saturating, halving and narrowing lane operations.
#[derive(Clone, Copy)]
pub enum SaturatingKind {
    AddSub {
        op: BinOp,
        to: SaturateTo,
    },
    Halving {
        rounding: bool,
    },
    Narrow {
        to: SaturateTo,
    },
    ShiftNarrow {
        shift: u64,
        rounding: bool,
        to: Option<SaturateTo>,
    },
    DoublingMultiplyHigh {
        rounding: bool,
    },
    Unary {
        negate: bool,
    },
}

// The functions of a lane's own bits.
#[derive(Clone, Copy)]
pub enum BitwiseUnary {
    PopulationCount,
    LeadingZeros,
    LeadingSignBits,
    ReverseBits,
}

// The families, each with its arguments. The Rust's AbsDiffKind has a float kind too, which is left aside, so its integer
// kind is given here by its two flags.
#[derive(Clone, Copy)]
pub enum NeonOp {
    Shift {
        kind: ShiftKind,
        signed: bool,
    },
    ShiftInsert {
        left: bool,
        shift: u64,
    },
    MixedSignAdd {
        destination_signed: bool,
    },
    DoublingLong {
        combine: Option<BinOp>,
        upper: bool,
        by_element: bool,
    },
    Saturating {
        kind: SaturatingKind,
        signed_sources: bool,
        upper: bool,
    },
    BitwiseUnary(BitwiseUnary),
    AbsoluteDifference {
        signed: bool,
        accumulate: bool,
    },
    HighNarrow {
        subtract: bool,
        rounding: bool,
        upper: bool,
    },
}

// A family at its lanes. `source_index` is the number of an element.
#[derive(Clone, Copy)]
pub struct NeonShape {
    pub op: NeonOp,
    pub lane_bits: u64,
    pub lanes: u64,
    pub source_index: Lane,
}
