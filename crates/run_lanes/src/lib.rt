// One lane of a result, by family: the exact integer, then the clamp or the cut.
#![tactic(auto)]

ghost use Rattle.std.specs.Prelude.{true, false, ◌≡◌, ◌+◌, ◌-◌, ◌*◌, ◌/◌, ◌<◌, ◌≤◌, ◌^◌};
ghost use Rattle.neon.specs.Arm.{wrap};
ghost use Rattle.terms.specs.declared.BinOp.TheVariants.{Add, Sub};
ghost use Rattle.trees.specs.declared.SaturatingKind.TheVariants.{AddSub, Halving, Narrow, ShiftNarrow, DoublingMultiplyHigh, Unary};
ghost use Rattle.trees.specs.Arith.{kind_bits};
ghost use Rattle.lower_kinds.specs.Sources.{AmountIn, KindIn};
ghost use Rattle.saturation.specs.Family.{own_range, shift_lane_z, shift_beyond, insert_lane_z, mixed_lane_z, mixed_beyond, doubling_lane_z, doubling_beyond};
ghost use Rattle.saturation.specs.Family.{saturating_lane_z, saturating_beyond, difference_lane_z, plus_z, high_z, family_lane, family_beyond};
ghost use Rattle.run_exact.specs.Exact.{Answers, Held};
ghost use Rattle.run_lanes.specs.Rows.{InsertIn, RowIn, source_of};

use run_exact::{
    Clamped, doubled_product, join, keep, limit, magnitude, read, right, scaled, turn, unary,
    unsigned,
};
use terms::BinOp;
use trees::{NeonOp, SaturateTo, SaturatingKind, ShiftKind};
use wide::word::power;
use wide::{Wide, low_bits};

pub mod bits;

// The range of a shift by a register.
fn own_range(saturate: bool, as_signed: bool) -> Option<SaturateTo>
    ensures { result ≡ own_range saturate as_signed }
{
    if saturate {
        if as_signed {
            return Some(SaturateTo::Signed);
        }
        return Some(SaturateTo::Unsigned);
    }
    None
}

fn shift_lane(kind: ShiftKind, as_signed: bool, n: u64, a: u64, b: u64) -> Clamped
    requires { (0 < n) × (n ≤ 64) × (a < 2 ^ n) × AmountIn kind n }
    ensures { Answers (shift_lane_z kind as_signed n a b) (shift_beyond kind as_signed n a b) result.bits result.saturated }
{
    let v = read(as_signed, n, a);
    match kind {
        ShiftKind::LeftImmediate { shift, saturate } => limit(saturate, n, scaled(v, shift)),
        ShiftKind::RightImmediate { shift, rounding } => {
            limit(None, n, right(rounding, v, shift))
        }
        ShiftKind::Register { rounding, saturate } => {
            limit(own_range(saturate, as_signed), n, turn(rounding, v, b))
        }
    }
}

fn mixed_lane(s: bool, n: u64, d: u64, a: u64) -> Clamped
    requires { (0 < n) × (n ≤ 64) × (a < 2 ^ n) × (d < 2 ^ n) }
    ensures { Answers (mixed_lane_z s n d a) (mixed_beyond s n d a) result.bits result.saturated }
{
    if s {
        return limit(
            Some(SaturateTo::Signed),
            n,
            join(BinOp::Add, read(true, n, d), read(false, n, a)),
        );
    }
    limit(
        Some(SaturateTo::Unsigned),
        n,
        join(BinOp::Add, read(false, n, d), read(true, n, a)),
    )
}

// The doubled product, and a sum with it, each clamped.
fn doubling_lane(combine: Option<BinOp>, n: u64, d: u64, a: u64, b: u64) -> Clamped
    requires { (2 ≤ n) × (n ≤ 64) × (a < 2 ^ (n / 2)) × (b < 2 ^ (n / 2)) × (d < 2 ^ n) }
    ensures { Answers (doubling_lane_z combine n d a b) (doubling_beyond combine n d a b) result.bits result.saturated }
{
    let p = limit(Some(SaturateTo::Signed), n, doubled_product(n / 2, a, b));
    match combine {
        None => p,
        Some(op) => {
            let q = limit(
                Some(SaturateTo::Signed),
                n,
                join(op, read(true, n, d), read(true, n, p.bits)),
            );
            Clamped {
                bits: q.bits,
                saturated: p.saturated | q.saturated,
            }
        }
    }
}

fn add_sub_lane(op: BinOp, to: SaturateTo, as_signed: bool, n: u64, a: u64, b: u64) -> Clamped
    requires { (0 < n) × (n ≤ 64) × (a < 2 ^ n) × (b < 2 ^ n) }
    ensures { Answers (saturating_lane_z (AddSub op to) as_signed n a b) (saturating_beyond (AddSub op to) as_signed n a b) result.bits result.saturated }
{
    limit(
        Some(to),
        n,
        join(op, read(as_signed, n, a), read(as_signed, n, b)),
    )
}

fn halving_lane(rounding: bool, as_signed: bool, n: u64, a: u64, b: u64) -> Clamped
    requires { (0 < n) × (n ≤ 64) × (a < 2 ^ n) × (b < 2 ^ n) }
    ensures { Answers (saturating_lane_z (Halving rounding) as_signed n a b) (saturating_beyond (Halving rounding) as_signed n a b) result.bits result.saturated }
{
    limit(
        None,
        n,
        right(
            rounding,
            join(BinOp::Add, read(as_signed, n, a), read(as_signed, n, b)),
            1,
        ),
    )
}

fn narrow_lane(to: SaturateTo, as_signed: bool, n: u64, a: u64) -> Clamped
    requires { (0 < n) × (n ≤ 32) × (a < 2 ^ (n * 2)) }
    ensures { Answers (saturating_lane_z (Narrow to) as_signed n a 0) (saturating_beyond (Narrow to) as_signed n a 0) result.bits result.saturated }
{
    limit(Some(to), n, read(as_signed, n * 2, a))
}

fn shift_narrow_lane(
    shift: u64,
    rounding: bool,
    to: Option<SaturateTo>,
    as_signed: bool,
    n: u64,
    a: u64,
) -> Clamped
    requires { (0 < n) × (n ≤ 32) × (a < 2 ^ (n * 2)) × (1 ≤ shift) × (shift ≤ n) }
    ensures { Answers (saturating_lane_z (ShiftNarrow shift rounding to) as_signed n a 0) (saturating_beyond (ShiftNarrow shift rounding to) as_signed n a 0) result.bits result.saturated }
{
    limit(to, n, right(rounding, read(as_signed, n * 2, a), shift))
}

fn multiply_high_lane(rounding: bool, n: u64, a: u64, b: u64) -> Clamped
    requires { (0 < n) × (n ≤ 64) × (a < 2 ^ n) × (b < 2 ^ n) }
    ensures { Answers (saturating_lane_z (DoublingMultiplyHigh rounding) true n a b) (saturating_beyond (DoublingMultiplyHigh rounding) true n a b) result.bits result.saturated }
{
    limit(
        Some(SaturateTo::Signed),
        n,
        right(rounding, doubled_product(n, a, b), n),
    )
}

fn unary_lane(negate: bool, n: u64, a: u64) -> Clamped
    requires { (0 < n) × (n ≤ 64) × (a < 2 ^ n) }
    ensures { Answers (saturating_lane_z (Unary negate) true n a 0) (saturating_beyond (Unary negate) true n a 0) result.bits result.saturated }
{
    limit(Some(SaturateTo::Signed), n, unary(negate, read(true, n, a)))
}

fn saturating_lane(kind: SaturatingKind, as_signed: bool, n: u64, a: u64, b: u64) -> Clamped
    requires { (0 < n) × (a < 2 ^ kind_bits kind n) × (b < 2 ^ kind_bits kind n) × KindIn kind n }
    ensures { Answers (saturating_lane_z kind as_signed n a b) (saturating_beyond kind as_signed n a b) result.bits result.saturated }
{
    match kind {
        SaturatingKind::AddSub { op, to } => add_sub_lane(op, to, as_signed, n, a, b),
        SaturatingKind::Halving { rounding } => halving_lane(rounding, as_signed, n, a, b),
        SaturatingKind::Narrow { to } => narrow_lane(to, as_signed, n, a),
        SaturatingKind::ShiftNarrow {
            shift,
            rounding,
            to,
        } => shift_narrow_lane(shift, rounding, to, as_signed, n, a),
        SaturatingKind::DoublingMultiplyHigh { rounding } => multiply_high_lane(rounding, n, a, b),
        SaturatingKind::Unary { negate } => unary_lane(negate, n, a),
    }
}

fn difference_lane(as_signed: bool, accumulate: bool, n: u64, d: u64, a: u64, b: u64) -> Clamped
    requires { (0 < n) × (n ≤ 64) × (a < 2 ^ n) × (b < 2 ^ n) }
    ensures { Answers (difference_lane_z as_signed accumulate n d a b) false result.bits result.saturated }
{
    let m = magnitude(join(BinOp::Sub, read(as_signed, n, a), read(as_signed, n, b)));
    if accumulate {
        return limit(None, n, join(BinOp::Add, unsigned(d), m));
    }
    limit(None, n, m)
}

fn sum_of(subtract: bool, a: u64, b: u64) -> Wide
    ensures { Held 66 result (high_z subtract a b) }
{
    if subtract {
        return join(BinOp::Sub, unsigned(a), unsigned(b));
    }
    join(BinOp::Add, unsigned(a), unsigned(b))
}

fn high_lane(subtract: bool, rounding: bool, n: u64, a: u64, b: u64) -> u64
    requires { (0 < n) × (n ≤ 32) }
    ensures { result ≡ wrap (n * 2) (plus_z rounding (high_z subtract a b) (2 ^ (n - 1))) / 2 ^ n }
{
    let s = sum_of(subtract, a, b);
    if rounding {
        return keep(n * 2, join(BinOp::Add, s, unsigned(power(n - 1)))) / power(n);
    }
    keep(n * 2, s) / power(n)
}

// SLI, SRI.
fn insert_lane(left: bool, shift: u64, n: u64, d: u64, a: u64) -> u64
    requires { (0 < n) × (n ≤ 64) × (a < 2 ^ n) × (d < 2 ^ n) × InsertIn left shift n }
    ensures { result ≡ insert_lane_z left shift n d a }
{
    if left {
        return keep(n, scaled(unsigned(a), shift)) + low_bits(d, shift);
    }
    d - low_bits(d, n - shift) + keep(n, right(false, unsigned(a), shift))
}

// One lane of n bits, of any family, and whether it saturated.
pub fn lane_at(op: NeonOp, n: u64, d: u64, a: u64, b: u64) -> Clamped
    requires { (0 < n) × (n ≤ 64) × (d < 2 ^ n) × (a < 2 ^ source_of op n) × (b < 2 ^ source_of op n) × RowIn op n }
    ensures { Answers (family_lane op n d a b) (family_beyond op n d a b) result.bits result.saturated }
{
    match op {
        NeonOp::Shift { kind, signed } => shift_lane(kind, signed, n, a, b),
        NeonOp::ShiftInsert { left, shift } => Clamped {
            bits: insert_lane(left, shift, n, d, a),
            saturated: false,
        },
        NeonOp::MixedSignAdd { destination_signed } => mixed_lane(destination_signed, n, d, a),
        NeonOp::DoublingLong {
            combine,
            upper: _,
            by_element: _,
        } => doubling_lane(combine, n, d, a, b),
        NeonOp::Saturating {
            kind,
            signed_sources,
            upper: _,
        } => saturating_lane(kind, signed_sources, n, a, b),
        NeonOp::BitwiseUnary(kind) => Clamped {
            bits: bits::bits_lane(kind, n, a),
            saturated: false,
        },
        NeonOp::AbsoluteDifference { signed, accumulate } => {
            difference_lane(signed, accumulate, n, d, a, b)
        }
        NeonOp::HighNarrow {
            subtract,
            rounding,
            upper: _,
        } => Clamped {
            bits: high_lane(subtract, rounding, n, a, b),
            saturated: false,
        },
    }
}
