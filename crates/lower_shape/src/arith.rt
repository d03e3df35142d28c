// The Rust's neon/arith.rs: the resolvers of an operation's arguments, here by the operation's number (document 01, "Forms").
ghost use Rattle.std.specs.Prelude.{◌≡◌, Bool, true, false, ◌⊎◌, ℕ, ◌≤◌};
ghost use Rattle.neon.specs.Op.{op_at};
ghost use Rattle.trees.specs.declared.NeonOp.{NeonOp};
ghost use Rattle.trees.specs.declared.ShiftKind.{ShiftKind};
ghost use Rattle.trees.specs.declared.SaturatingKind.{SaturatingKind};
ghost use Rattle.trees.specs.Neon.{neon_op};

use terms::BinOp;
use trees::{BitwiseUnary, NeonOp, SaturateTo, SaturatingKind, ShiftKind};

pub fn bitwise_unary_shape(operation: u64) -> NeonOp
    requires { (60 ≤ operation) × (operation ≤ 63) }
    ensures { (i : ℕ) (upper : Bool) → result ≡ neon_op (op_at operation) i upper }
{
    match operation {
        60 => NeonOp::BitwiseUnary(BitwiseUnary::PopulationCount), // CNT
        61 => NeonOp::BitwiseUnary(BitwiseUnary::LeadingZeros), // CLZ
        62 => NeonOp::BitwiseUnary(BitwiseUnary::LeadingSignBits), // CLS
        _ => NeonOp::BitwiseUnary(BitwiseUnary::ReverseBits), // RBIT
    }
}

fn integer(signed: bool, accumulate: bool) -> NeonOp
    ensures { result ≡ NeonOp.AbsoluteDifference signed accumulate }
{
    NeonOp::AbsoluteDifference { signed, accumulate }
}

pub fn absolute_difference_shape(operation: u64) -> NeonOp
    requires { (56 ≤ operation) × (operation ≤ 59) }
    ensures { (i : ℕ) (upper : Bool) → result ≡ neon_op (op_at operation) i upper }
{
    match operation {
        56 => integer(true, false), // SABD
        57 => integer(false, false), // UABD
        58 => integer(true, true), // SABA
        _ => integer(false, true), // UABA
    }
}

fn left(shift: u64, saturate: Option<SaturateTo>, signed: bool) -> NeonOp
    ensures { result ≡ NeonOp.Shift (ShiftKind.LeftImmediate shift saturate) signed }
{
    let kind = ShiftKind::LeftImmediate { shift, saturate };
    NeonOp::Shift { kind, signed }
}

fn right(shift: u64, rounding: bool, signed: bool) -> NeonOp
    ensures { result ≡ NeonOp.Shift (ShiftKind.RightImmediate shift rounding) signed }
{
    let kind = ShiftKind::RightImmediate { shift, rounding };
    NeonOp::Shift { kind, signed }
}

fn register(rounding: bool, saturate: bool, signed: bool) -> NeonOp
    ensures { result ≡ NeonOp.Shift (ShiftKind.Register rounding saturate) signed }
{
    let kind = ShiftKind::Register { rounding, saturate };
    NeonOp::Shift { kind, signed }
}

// SQSHL and UQSHL have a form by an immediate and one by a register.
pub fn shift_shape(operation: u64, i: u64) -> NeonOp
    requires { (1 ≤ operation) × (operation ≤ 16) }
    ensures { (upper : Bool) → result ≡ neon_op (op_at operation) i upper }
{
    match operation {
        1 => left(i, None, false), // SHL
        2 => left(i, Some(SaturateTo::Signed), true), // SQSHL by an immediate
        3 => left(i, Some(SaturateTo::Unsigned), false), // UQSHL by an immediate
        4 => left(i, Some(SaturateTo::SignedToUnsigned), true), // SQSHLU
        5 => right(i, false, true), // SSHR
        6 => right(i, false, false), // USHR
        7 => right(i, true, true), // SRSHR
        8 => right(i, true, false), // URSHR
        9 => register(false, false, true), // SSHL
        10 => register(false, false, false), // USHL
        11 => register(true, false, true), // SRSHL
        12 => register(true, false, false), // URSHL
        13 => register(false, true, true), // SQSHL
        14 => register(false, true, false), // UQSHL
        15 => register(true, true, true), // SQRSHL
        _ => register(true, true, false), // UQRSHL
    }
}

pub fn shift_insert_shape(operation: u64, i: u64) -> NeonOp
    requires { (17 ≤ operation) × (operation ≤ 18) }
    ensures { (upper : Bool) → result ≡ neon_op (op_at operation) i upper }
{
    let left = match operation {
        17 => true, // SLI
        _ => false, // SRI
    };
    NeonOp::ShiftInsert { left, shift: i }
}

fn saturating(kind: SaturatingKind, signed_sources: bool, upper: bool) -> NeonOp
    ensures { result ≡ NeonOp.Saturating kind signed_sources upper }
{
    NeonOp::Saturating {
        kind,
        signed_sources,
        upper,
    }
}

fn add_sub(op: BinOp, to: SaturateTo, signed: bool) -> NeonOp
    ensures { result ≡ NeonOp.Saturating (SaturatingKind.AddSub op to) signed false }
{
    saturating(SaturatingKind::AddSub { op, to }, signed, false)
}

fn halving(rounding: bool, signed: bool) -> NeonOp
    ensures { result ≡ NeonOp.Saturating (SaturatingKind.Halving rounding) signed false }
{
    saturating(SaturatingKind::Halving { rounding }, signed, false)
}

fn unary(negate: bool) -> NeonOp
    ensures { result ≡ NeonOp.Saturating (SaturatingKind.Unary negate) true false }
{
    saturating(SaturatingKind::Unary { negate }, true, false)
}

fn multiply_high(rounding: bool) -> NeonOp
    ensures { result ≡ NeonOp.Saturating (SaturatingKind.DoublingMultiplyHigh rounding) true false }
{
    saturating(
        SaturatingKind::DoublingMultiplyHigh { rounding },
        true,
        false,
    )
}

// UQSUB can go below 0, so its range is that of a signed value.
fn saturating_same_width(operation: u64) -> NeonOp
    requires { (19 ≤ operation) × (operation ≤ 41) × ((operation ≤ 26) ⊎ (38 ≤ operation)) }
    ensures { (i : ℕ) (upper : Bool) → result ≡ neon_op (op_at operation) i upper }
{
    match operation {
        19 => add_sub(BinOp::Add, SaturateTo::Signed, true), // SQADD
        20 => add_sub(BinOp::Add, SaturateTo::Unsigned, false), // UQADD
        21 => add_sub(BinOp::Sub, SaturateTo::Signed, true), // SQSUB
        22 => add_sub(BinOp::Sub, SaturateTo::SignedToUnsigned, false), // UQSUB
        23 => halving(false, true), // SHADD
        24 => halving(false, false), // UHADD
        25 => halving(true, true), // SRHADD
        26 => halving(true, false), // URHADD
        38 => unary(false), // SQABS
        39 => unary(true), // SQNEG
        40 => multiply_high(false), // SQDMULH
        _ => multiply_high(true), // SQRDMULH
    }
}

fn narrow(to: SaturateTo, signed: bool, upper: bool) -> NeonOp
    ensures { result ≡ NeonOp.Saturating (SaturatingKind.Narrow to) signed upper }
{
    saturating(SaturatingKind::Narrow { to }, signed, upper)
}

fn shift_narrow(
    shift: u64,
    rounding: bool,
    to: Option<SaturateTo>,
    signed: bool,
    upper: bool,
) -> NeonOp
    ensures { result ≡ NeonOp.Saturating (SaturatingKind.ShiftNarrow shift rounding to) signed upper }
{
    let kind = SaturatingKind::ShiftNarrow {
        shift,
        rounding,
        to,
    };
    saturating(kind, signed, upper)
}

fn clamped(shift: u64, rounding: bool, to: SaturateTo, signed: bool, upper: bool) -> NeonOp
    ensures { result ≡ NeonOp.Saturating (SaturatingKind.ShiftNarrow shift rounding (Some to)) signed upper }
{
    shift_narrow(shift, rounding, Some(to), signed, upper)
}

fn saturating_narrowing(operation: u64, i: u64, upper: bool) -> NeonOp
    requires { (27 ≤ operation) × (operation ≤ 37) }
    ensures { result ≡ neon_op (op_at operation) i upper }
{
    match operation {
        27 => narrow(SaturateTo::Signed, true, upper), // SQXTN
        28 => narrow(SaturateTo::Unsigned, false, upper), // UQXTN
        29 => narrow(SaturateTo::SignedToUnsigned, true, upper), // SQXTUN
        30 => shift_narrow(i, false, None, false, upper), // SHRN
        31 => shift_narrow(i, true, None, false, upper), // RSHRN
        32 => clamped(i, false, SaturateTo::Signed, true, upper), // SQSHRN
        33 => clamped(i, true, SaturateTo::Signed, true, upper), // SQRSHRN
        34 => clamped(i, false, SaturateTo::Unsigned, false, upper), // UQSHRN
        35 => clamped(i, true, SaturateTo::Unsigned, false, upper), // UQRSHRN
        36 => clamped(i, false, SaturateTo::SignedToUnsigned, true, upper), // SQSHRUN
        _ => clamped(i, true, SaturateTo::SignedToUnsigned, true, upper), // SQRSHRUN
    }
}

pub fn saturating_shape(operation: u64, i: u64, upper: bool) -> NeonOp
    requires { (19 ≤ operation) × (operation ≤ 41) }
    ensures { result ≡ neon_op (op_at operation) i upper }
{
    if operation < 27 {
        return saturating_same_width(operation);
    }
    if operation < 38 {
        return saturating_narrowing(operation, i, upper);
    }
    saturating_same_width(operation)
}

pub fn mixed_sign_add_shape(operation: u64) -> NeonOp
    requires { (54 ≤ operation) × (operation ≤ 55) }
    ensures { (i : ℕ) (upper : Bool) → result ≡ neon_op (op_at operation) i upper }
{
    let destination_signed = match operation {
        54 => true, // SUQADD
        _ => false, // USQADD
    };
    NeonOp::MixedSignAdd { destination_signed }
}

fn long(combine: Option<BinOp>, upper: bool, by_element: bool) -> NeonOp
    ensures { result ≡ NeonOp.DoublingLong combine upper by_element }
{
    NeonOp::DoublingLong {
        combine,
        upper,
        by_element,
    }
}

// From SQDMULL by an element on, the second source is one element.
pub fn doubling_long_shape(operation: u64) -> NeonOp
    requires { (42 ≤ operation) × (operation ≤ 53) }
    ensures { (i : ℕ) (upper : Bool) → result ≡ neon_op (op_at operation) i upper }
{
    match operation {
        42 => long(None, false, false), // SQDMULL
        43 => long(Some(BinOp::Add), false, false), // SQDMLAL
        44 => long(Some(BinOp::Sub), false, false), // SQDMLSL
        45 => long(None, true, false), // SQDMULL2
        46 => long(Some(BinOp::Add), true, false), // SQDMLAL2
        47 => long(Some(BinOp::Sub), true, false), // SQDMLSL2
        48 => long(None, false, true), // SQDMULL by an element
        49 => long(Some(BinOp::Add), false, true), // SQDMLAL by an element
        50 => long(Some(BinOp::Sub), false, true), // SQDMLSL by an element
        51 => long(None, true, true), // SQDMULL2 by an element
        52 => long(Some(BinOp::Add), true, true), // SQDMLAL2 by an element
        _ => long(Some(BinOp::Sub), true, true), // SQDMLSL2 by an element
    }
}
