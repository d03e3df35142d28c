// One word of a number: what goes over to the next, and what comes from the one below.
ghost use Rattle.std.specs.Prelude.{◌≡◌, ◌+◌, ◌-◌, ◌*◌, ◌/◌, ◌%◌, ◌^◌, ◌<◌, ◌≤◌};
ghost use Rattle.wide.specs.Number.{base};

use crate::Step;
use std::num::{wrapping_add_u64, wrapping_sub_u64};

// a + b + c, where c is a carry.
pub fn add_carry(a: u64, b: u64, c: u64) -> Step
    requires { c ≤ 1 }
    ensures { (result.word + base * result.over ≡ a + b + c) × (result.over ≤ 1) × (result.word < base) }
{
    let s = wrapping_add_u64(a, b);
    let t = wrapping_add_u64(s, c);
    if s < a {
        return Step { word: t, over: 1 };
    }
    if t < s {
        return Step { word: t, over: 1 };
    }
    Step { word: t, over: 0 }
}

// a - b - c, where c is a borrow.
pub fn sub_borrow(a: u64, b: u64, c: u64) -> Step
    requires { c ≤ 1 }
    ensures { (result.word + b + c ≡ a + base * result.over) × (result.over ≤ 1) }
{
    let s = wrapping_sub_u64(a, b);
    let t = wrapping_sub_u64(s, c);
    if a < b {
        return Step { word: t, over: 1 };
    }
    if s < c {
        return Step { word: t, over: 1 };
    }
    Step { word: t, over: 0 }
}

// 2^k in one word.
pub fn power(k: u64) -> u64
    requires { k < 64 }
    ensures { result ≡ 2 ^ k }
{
    1u64 << k
}

// The largest number of so many bits, 0 for none.
pub fn unsigned_max(bits: u64) -> u64
    requires { bits ≤ 64 }
    ensures { result ≡ 2 ^ bits - 1 }
{
    if bits == 64 {
        return u64::MAX;
    }
    power(bits) - 1
}

// The upper word of two that are shifted to the left.
pub fn funnel(high: u64, low: u64, k: u64) -> u64
    requires { (0 < k) × (k < 64) }
    ensures { result ≡ high % 2 ^ (64 - k) * 2 ^ k + low / 2 ^ (64 - k) }
{
    (high << k) | (low >> (64 - k))
}

// 2^32
const HALF: u64 = 4294967296;

// The product of two words, in two, by halves of words.
pub fn product(a: u64, b: u64) -> Step
    ensures { (result.word + base * result.over ≡ a * b) × (result.word < base) }
{
    let a0 = a % HALF;
    let a1 = a / HALF;
    let b0 = b % HALF;
    let b1 = b / HALF;
    let p = a0 * b0;
    let m = a0 * b1 + p / HALF;
    let l = a1 * b0 + m % HALF;
    Step {
        word: p % HALF + l % HALF * HALF,
        over: a1 * b1 + m / HALF + l / HALF,
    }
}
