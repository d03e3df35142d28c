// The Rust's neon/lower.rs: what several families use. arith has what the families of neon/lower/arith.rs share.
#![tactic(auto)]

ghost use Rattle.std.specs.Prelude.{◌≡◌, ◌-◌, ◌≤◌, ◌<◌, ◌^◌};
ghost use Rattle.pool.specs.Node.{wide as wide_words};
ghost use Rattle.pool.specs.Growth.{Room};
ghost use Rattle.lower.specs.Builds.{MadeExtend};

use pool::{Built, Node};
use wide::word::{power, unsigned_max};

pub mod arith;
pub mod family;

// Two words, the low one first: the Rust's u128.
#[derive(Clone, Copy)]
pub struct Words {
    pub lo: u64,
    pub hi: u64,
}

// -2^bits, at the width wide.
pub fn minus_power(wide: u64, bits: u64) -> Words
    requires { (bits < 64) × (bits ≤ wide) × (wide ≤ 128) }
    ensures { wide_words result.lo result.hi ≡ 2 ^ wide - 2 ^ bits }
{
    let below = power(bits) - 1;
    if wide <= 64 {
        return Words {
            lo: unsigned_max(wide) - below,
            hi: 0,
        };
    }
    Words {
        lo: 0xffff_ffff_ffff_ffff - below,
        hi: unsigned_max(wide - 64),
    }
}

pub fn extend(pool: &mut [u64], count: usize, value: Node, to: u64, signed: bool) -> Built
    requires room { Room pool.old count 1 }
    requires value_lt_count { (value.0 < count) × (to ≤ 129) }
    ensures { MadeExtend pool.old count pool.new result value to signed }
{
    if signed {
        pool_nodes::sign_ext(pool, count, value, to)
    } else {
        pool_nodes::zero_ext(pool, count, value, to)
    }
}
