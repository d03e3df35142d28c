// Lanes on exact integers, in three words: the manual's pseudocode works on unbounded integers, and no lane's exact result
// passes 191 bits.
#![tactic(auto)]

ghost use Rattle.std.specs.Prelude.{◌≡◌, ◌-◌, ◌<◌, ◌≤◌, ◌^◌, pos, ◌*ℤ◌};
ghost use Rattle.trees.specs.declared.SaturateTo.TheVariants.{Signed, Unsigned};
ghost use Rattle.neon.specs.Arm.{S};
ghost use Rattle.saturation.specs.Family.{read_z};
ghost use Rattle.run_exact.specs.Exact.{Held, is_sub, Kept, Between, ClampedTo, Limited, Joined, Scaled, Lowered, Turned, Negated, Magnitude, OfUnary};

use terms::BinOp;
use trees::SaturateTo;
use wide::word::{power, unsigned_max};
use wide::{Wide, add, low_bits, mul, shl, sub};
use wide_bit_vectors::{bv_ashr, bv_slt};

// A lane of a result, and whether it was clamped.
#[derive(Clone, Copy)]
pub struct Clamped {
    pub bits: u64,
    pub saturated: bool,
}

// A number of one word.
pub fn unsigned(a: u64) -> Wide
    ensures { Held 65 result (pos a) }
{
    Wide {
        low: a,
        high: 0,
        top: 0,
    }
}

// A lane of n bits, read signed.
fn signed(n: u64, a: u64) -> Wide
    requires { (0 < n) × (n ≤ 64) × (a < 2 ^ n) }
    ensures { Held n result (S n a) }
{
    if a < power(n - 1) {
        return Wide {
            low: a,
            high: 0,
            top: 0,
        };
    }
    Wide {
        low: a + (u64::MAX - unsigned_max(n)),
        high: u64::MAX,
        top: u64::MAX,
    }
}

// A lane of n bits, as it is read.
pub fn read(as_signed: bool, n: u64, a: u64) -> Wide
    requires { (0 < n) × (n ≤ 64) × (a < 2 ^ n) }
    ensures { Held 65 result (read_z as_signed n a) }
{
    if as_signed {
        return signed(n, a);
    }
    unsigned(a)
}

// The n low bits.
pub fn keep(n: u64, v: Wide) -> u64
    requires { n ≤ 64 }
    ensures { Kept n v result }
{
    low_bits(v.low, n)
}

// An integer brought between two others, in n bits.
fn clamp(n: u64, low: Wide, high: Wide, v: Wide) -> Clamped
    requires { n ≤ 64 }
    ensures { Between n low high v result.bits result.saturated }
{
    if bv_slt(v, low, 192) {
        return Clamped {
            bits: keep(n, low),
            saturated: true,
        };
    }
    if bv_slt(high, v, 192) {
        return Clamped {
            bits: keep(n, high),
            saturated: true,
        };
    }
    Clamped {
        bits: keep(n, v),
        saturated: false,
    }
}

fn clamp_signed(n: u64, v: Wide) -> Clamped
    requires { (0 < n) × (n ≤ 64) }
    ensures { ClampedTo Signed n v result.bits result.saturated }
{
    let half = power(n - 1);
    clamp(n, signed(n, half), unsigned(half - 1), v)
}

fn clamp_unsigned(n: u64, v: Wide) -> Clamped
    requires { (0 < n) × (n ≤ 64) }
    ensures { ClampedTo Unsigned n v result.bits result.saturated }
{
    clamp(n, unsigned(0), unsigned(unsigned_max(n)), v)
}

// Into the signed or the unsigned range of n bits.
fn clamp_to(to: SaturateTo, n: u64, v: Wide) -> Clamped
    requires { (0 < n) × (n ≤ 64) }
    ensures { ClampedTo to n v result.bits result.saturated }
{
    match to {
        SaturateTo::Signed => clamp_signed(n, v),
        SaturateTo::Unsigned => clamp_unsigned(n, v),
        SaturateTo::SignedToUnsigned => clamp_unsigned(n, v),
    }
}

// Clamped or not, in n bits.
pub fn limit(saturate: Option<SaturateTo>, n: u64, v: Wide) -> Clamped
    requires { (0 < n) × (n ≤ 64) }
    ensures { Limited saturate n v result.bits result.saturated }
{
    match saturate {
        None => Clamped {
            bits: keep(n, v),
            saturated: false,
        },
        Some(to) => clamp_to(to, n, v),
    }
}

fn is_sub(op: BinOp) -> bool
    ensures { result ≡ is_sub op }
{
    matches!(op, BinOp::Sub)
}

// The sum, or the difference.
pub fn join(op: BinOp, a: Wide, b: Wide) -> Wide
    ensures { Joined op a b result }
{
    if is_sub(op) {
        return sub(a, b);
    }
    add(a, b)
}

// Twice the product of two signed lanes of n bits.
pub fn doubled_product(n: u64, a: u64, b: u64) -> Wide
    requires { (0 < n) × (n ≤ 64) × (a < 2 ^ n) × (b < 2 ^ n) }
    ensures { Held 129 result (S n a *ℤ S n b *ℤ pos 2) }
{
    shl(mul(signed(n, a), signed(n, b)), 1)
}

// To the left by k.
pub fn scaled(v: Wide, k: u64) -> Wide
    requires { k < 128 }
    ensures { Scaled v k result }
{
    shl(v, k)
}

// To the right by k, rounding or not.
pub fn right(rounding: bool, v: Wide, k: u64) -> Wide
    requires { (0 < k) × (k ≤ 128) }
    ensures { Lowered rounding v k result }
{
    if rounding {
        return bv_ashr(add(v, shl(unsigned(1), k - 1)), unsigned(k), 192);
    }
    bv_ashr(v, unsigned(k), 192)
}

// By the signed low byte of b, to the left or to the right.
pub fn turn(rounding: bool, v: Wide, b: u64) -> Wide
    ensures { Turned rounding v b result }
{
    let amount = b % 256;
    if amount < 128 {
        return scaled(v, amount);
    }
    right(rounding, v, 256 - amount)
}

fn negative(v: Wide) -> Wide
    ensures { Negated v result }
{
    sub(unsigned(0), v)
}

pub fn magnitude(v: Wide) -> Wide
    ensures { Magnitude v result }
{
    if bv_slt(v, unsigned(0), 192) {
        return negative(v);
    }
    v
}

// The negative, or the magnitude.
pub fn unary(negate: bool, v: Wide) -> Wide
    ensures { OfUnary negate v result }
{
    if negate {
        return negative(v);
    }
    magnitude(v)
}
