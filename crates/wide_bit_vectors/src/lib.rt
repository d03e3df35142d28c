// Bit-vector operations of SMT-LIB on numbers in three words, at any width up to 192: those of crate `wide`, cut to the width.
#![tactic(auto)]

ghost use Rattle.std.specs.Prelude.{◌≡◌, ◌+◌, ◌-◌, ◌*◌, ◌/◌, ◌%◌, ◌^◌, ◌<◌, ◌≤◌, suc, ltb};
ghost use Rattle.terms.specs.Value.{bvadd, bvsub, bvmul, bvshl, bvlshr, bvashr, bvnot, bvslt, bvsext, msb};
ghost use Rattle.wide.specs.Number.{num};

use pool::Bit;
use wide::{Wide, add, cut, less, mul, shl, shr, sub};

pub fn bv_add(a: Wide, b: Wide, w: u64) -> Wide
    requires { w ≤ 192 }
    ensures { num result ≡ bvadd w (num a) (num b) }
{
    cut(add(a, b), w)
}

pub fn bv_sub(a: Wide, b: Wide, w: u64) -> Wide
    requires { (w ≤ 192) × (num b < 2 ^ w) }
    ensures { num result ≡ bvsub w (num a) (num b) }
{
    cut(sub(a, b), w)
}

pub fn bv_mul(a: Wide, b: Wide, w: u64) -> Wide
    requires { w ≤ 192 }
    ensures { num result ≡ bvmul w (num a) (num b) }
{
    cut(mul(a, b), w)
}

// Whether a number is one word and below w.
#[tactic(auto, using(std::proofs::lemmas::Bool::Decides::nat_tests), unfolding(wide::specs::Number::words))]
fn below(a: Wide, w: u64) -> bool
    ensures { result ≡ ltb (num a) w }
{
    let limit = Wide {
        top: 0,
        high: 0,
        low: w,
    };
    a < limit
}

pub fn bv_shl(a: Wide, t: Wide, w: u64) -> Wide
    requires { w ≤ 192 }
    ensures { num result ≡ bvshl w (num a) (num t) }
{
    if !below(t, w) {
        return Wide {
            low: 0,
            high: 0,
            top: 0,
        };
    }
    cut(shl(a, t.low), w)
}

pub fn bv_lshr(a: Wide, t: Wide, w: u64) -> Wide
    requires { (w ≤ 192) × (num a < 2 ^ w) }
    ensures { num result ≡ bvlshr w (num a) (num t) }
{
    if !below(t, w) {
        return Wide {
            low: 0,
            high: 0,
            top: 0,
        };
    }
    shr(a, t.low)
}

// Each of w bits inverted.
pub fn bv_not(a: Wide, w: u64) -> Wide
    requires { (w ≤ 192) × (num a < 2 ^ w) }
    ensures { num result ≡ bvnot w (num a) }
{
    cut(
        Wide {
            low: u64::MAX - a.low,
            high: u64::MAX - a.high,
            top: u64::MAX - a.top,
        },
        w,
    )
}

// The most significant of w bits.
fn top_bit(a: Wide, w: u64) -> u64
    requires { (0 < w) × (w ≤ 192) }
    ensures { result ≡ msb w (num a) }
{
    shr(a, w - 1).low % 2
}

pub fn bv_ashr(a: Wide, t: Wide, w: u64) -> Wide
    requires { (0 < w) × (w ≤ 192) × (num a < 2 ^ w) }
    ensures { num result ≡ bvashr w (num a) (num t) }
{
    if top_bit(a, w) == 0 {
        return bv_lshr(a, t, w);
    }
    bv_not(bv_lshr(bv_not(a, w), t, w), w)
}

pub fn bv_slt(a: Wide, b: Wide, w: u64) -> bool
    requires { (0 < w) × (w ≤ 192) }
    ensures { result ≡ bvslt w (num a) (num b) }
{
    let s = top_bit(a, w);
    let t = top_bit(b, w);
    ((s == 1) & (t == 0)) | ((s == t) & less(a, b))
}

// w bits from m, with copies of the top bit above.
pub fn bv_sext(a: Wide, m: u64, w: u64) -> Wide
    requires { (0 < m) × (m ≤ w) × (w ≤ 192) × (num a < 2 ^ m) }
    ensures { num result ≡ bvsext m w (num a) }
{
    if top_bit(a, m) == 0 {
        return a;
    }
    bv_not(bv_not(a, m), w)
}

pub fn bv_extract(a: Wide, hi: Bit, lo: Bit) -> Wide
    requires { (lo.0 ≤ hi.0) × (hi.0 < 192) }
    ensures { num result ≡ num a / 2 ^ lo.0 % 2 ^ suc (hi.0 - lo.0) }
{
    cut(shr(a, lo.0), hi.0 - lo.0 + 1)
}

pub fn bv_concat(a: Wide, b: Wide, w: u64) -> Wide
    requires { (w < 192) × (num a * 2 ^ w + num b < 2 ^ 192) }
    ensures { num result ≡ num a * 2 ^ w + num b }
{
    add(shl(a, w), b)
}
