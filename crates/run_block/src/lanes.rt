// The lanes of a result: each cut from the registers, run, and put in its place.
ghost use Rattle.std.specs.Prelude.{◌≡◌, ◌+◌, ◌/◌, ◌%◌, ◌^◌, ◌<◌, ◌≤◌};
ghost use Rattle.run_lanes.specs.Rows.{RowIn, source_of};
ghost use Rattle.run_block.specs.Lanes.{number, second_at, Within, lane_by, beyond_by, RanLanes};

use crate::{Ran, Register};
use neon::Lane;
use pool::Bit;
use run_lanes::lane_at;
use trees::NeonOp;
use wide::{Wide, add, low_bits, shl};

// The n bits from bit `at` on, which do not cross a word.
fn bits_at(x: Register, n: u64, at: Bit) -> u64
    requires { (at.0 < 128) × (at.0 % 64 + n ≤ 64) }
    ensures { result ≡ number x / 2 ^ at.0 % 2 ^ n }
{
    if at.0 < 64 {
        return low_bits(x.low >> at.0, n);
    }
    low_bits(x.high >> (at.0 - 64), n)
}

// The lane of the second source.
fn second_at(element: bool, index: Lane, skip: u64, j: Lane) -> Lane
    requires { j.0 + skip < 1000 }
    ensures { result.0 ≡ second_at element index.0 skip j.0 }
{
    if element {
        return index;
    }
    Lane(j.0 + skip)
}

// The lanes of a result, put together.
pub fn run_lanes(
    op: NeonOp,
    n: u64,
    m: u64,
    k: u64,
    skip: u64,
    element: bool,
    index: Lane,
    d: Register,
    a: Register,
    b: Register,
) -> Ran
    requires { (0 < n) × (0 < m) × (m ≡ source_of op n) × RowIn op n × Within n m k skip element index.0 }
    ensures { RanLanes n k (lane_by op n m skip element index.0 (number d) (number a) (number b))
        (beyond_by op n m skip element index.0 (number d) (number a) (number b)) result }
{
    let mut acc = Wide {
        low: 0,
        high: 0,
        top: 0,
    };
    let mut saturated = false;
    for j in 0..k {
        let at = Bit(n * j);
        let l = lane_at(
            op,
            n,
            bits_at(d, n, at),
            bits_at(a, m, Bit(m * (j + skip))),
            bits_at(b, m, Bit(m * second_at(element, index, skip, Lane(j)).0)),
        );
        acc = add(
            shl(
                Wide {
                    low: l.bits,
                    high: 0,
                    top: 0,
                },
                at.0,
            ),
            acc,
        );
        saturated |= l.saturated;
    }
    Ran {
        low: acc.low,
        high: acc.high,
        saturated,
    }
}
