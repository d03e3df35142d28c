// Numbers of 192 bits in three words: the arithmetic that values of terms and exact lanes share. Terms have up to 129 bits, and exact
// lanes fit as signed numbers; so all is done modulo 2^192, and `cut` then drops what lies above a width.
#![tactic(auto)]

ghost use Rattle.std.specs.Prelude.{◌≡◌, ◌-◌, ◌/◌, ◌%◌, ◌^◌, ◌<◌, ◌≤◌, ◌==◌, bit_and, bit_or, bit_xor, nat_lt};
ghost use Rattle.terms.specs.Value.{bvadd, bvsub, bvmul, bvshl};
ghost use Rattle.wide.specs.Number.{num};

use word::{add_carry, funnel, power, product, sub_borrow};

pub mod word;

// A number. Its highest word comes first, so that the derived order is that of the numbers.
#[derive(Clone, Copy, PartialEq, Eq, PartialOrd, Ord)]
pub struct Wide {
    pub top: u64,
    pub high: u64,
    pub low: u64,
}

// A word of a sum or a difference, and what goes over to the next.
#[derive(Clone, Copy)]
pub struct Step {
    pub word: u64,
    pub over: u64,
}

// Sums and differences, word by word.
pub fn add(a: Wide, b: Wide) -> Wide
    ensures { num result ≡ bvadd 192 (num a) (num b) }
{
    let x = add_carry(a.low, b.low, 0);
    let y = add_carry(a.high, b.high, x.over);
    let z = add_carry(a.top, b.top, y.over);
    Wide {
        low: x.word,
        high: y.word,
        top: z.word,
    }
}

pub fn sub(a: Wide, b: Wide) -> Wide
    ensures { num result ≡ bvsub 192 (num a) (num b) }
{
    let x = sub_borrow(a.low, b.low, 0);
    let y = sub_borrow(a.high, b.high, x.over);
    let z = sub_borrow(a.top, b.top, y.over);
    Wide {
        low: x.word,
        high: y.word,
        top: z.word,
    }
}

// The k low bits of a word.
pub fn low_bits(x: u64, k: u64) -> u64
    requires { k ≤ 64 }
    ensures { result ≡ x % 2 ^ k }
{
    if k == 64 {
        return x;
    }
    x & (power(k) - 1)
}

// The w low bits.
pub fn cut(a: Wide, w: u64) -> Wide
    requires { w ≤ 192 }
    ensures { num result ≡ num a % 2 ^ w }
{
    if w <= 64 {
        return Wide {
            low: low_bits(a.low, w),
            high: 0,
            top: 0,
        };
    }
    if w <= 128 {
        return Wide {
            low: a.low,
            high: low_bits(a.high, w - 64),
            top: 0,
        };
    }
    Wide {
        low: a.low,
        high: a.high,
        top: low_bits(a.top, w - 128),
    }
}

// A shift inside a word.
fn shl_bits(a: Wide, k: u64) -> Wide
    requires { k < 64 }
    ensures { num result ≡ bvshl 192 (num a) k }
{
    if k == 0 {
        return a;
    }
    Wide {
        low: a.low << k,
        high: funnel(a.high, a.low, k),
        top: funnel(a.top, a.high, k),
    }
}

pub fn shl(a: Wide, k: u64) -> Wide
    requires { k < 192 }
    ensures { num result ≡ bvshl 192 (num a) k }
{
    if k < 64 {
        return shl_bits(a, k);
    }
    if k < 128 {
        return shl_bits(
            Wide {
                low: 0,
                high: a.low,
                top: a.high,
            },
            k - 64,
        );
    }
    shl_bits(
        Wide {
            low: 0,
            high: 0,
            top: a.low,
        },
        k - 128,
    )
}

fn shr_bits(a: Wide, k: u64) -> Wide
    requires { k < 64 }
    ensures { num result ≡ num a / 2 ^ k }
{
    if k == 0 {
        return a;
    }
    Wide {
        low: funnel(a.high, a.low, 64 - k),
        high: funnel(a.top, a.high, 64 - k),
        top: a.top >> k,
    }
}

pub fn shr(a: Wide, k: u64) -> Wide
    requires { k < 192 }
    ensures { num result ≡ num a / 2 ^ k }
{
    if k < 64 {
        return shr_bits(a, k);
    }
    if k < 128 {
        return shr_bits(
            Wide {
                low: a.high,
                high: a.top,
                top: 0,
            },
            k - 64,
        );
    }
    shr_bits(
        Wide {
            low: a.top,
            high: 0,
            top: 0,
        },
        k - 128,
    )
}

// Bit by bit.
pub fn and(a: Wide, b: Wide) -> Wide
    ensures { num result ≡ bit_and (num a) (num b) }
{
    Wide {
        low: a.low & b.low,
        high: a.high & b.high,
        top: a.top & b.top,
    }
}

pub fn or(a: Wide, b: Wide) -> Wide
    ensures { num result ≡ bit_or (num a) (num b) }
{
    Wide {
        low: a.low | b.low,
        high: a.high | b.high,
        top: a.top | b.top,
    }
}

pub fn xor(a: Wide, b: Wide) -> Wide
    ensures { num result ≡ bit_xor (num a) (num b) }
{
    Wide {
        low: a.low ^ b.low,
        high: a.high ^ b.high,
        top: a.top ^ b.top,
    }
}

// The derived tests of the words, said of the numbers.
#[tactic(auto, using(std::proofs::lemmas::Bool::Decides::nat_tests), unfolding(crate::specs::Number::words))]
pub fn equal(a: Wide, b: Wide) -> bool
    ensures { result ≡ (num a == num b) }
{
    a == b
}

#[tactic(auto, using(std::proofs::lemmas::Bool::Decides::nat_tests), unfolding(crate::specs::Number::words))]
pub fn less(a: Wide, b: Wide) -> bool
    ensures { result ≡ nat_lt (num a) (num b) }
{
    a < b
}

// By words from the lowest; what lies above the third is dropped.
pub fn mul(a: Wide, b: Wide) -> Wide
    ensures { num result ≡ bvmul 192 (num a) (num b) }
{
    let x = product(a.low, b.low);
    let y = product(a.low, b.high);
    let z = product(a.high, b.low);
    let s = add_carry(x.over, y.word, 0);
    let t = add_carry(s.word, z.word, 0);
    let u = add_carry(y.over, z.over, s.over);
    let v = add_carry(u.word, product(a.low, b.top).word, t.over);
    let w = add_carry(v.word, product(a.high, b.high).word, 0);
    let q = add_carry(w.word, product(a.top, b.low).word, 0);
    Wide {
        low: x.word,
        high: t.word,
        top: q.word,
    }
}
