// The lanes of CNT, CLZ, CLS and RBIT, bit by bit.
ghost use Rattle.std.specs.Prelude.{◌≡◌, ◌-◌, ◌<◌, ◌≤◌};
ghost use Rattle.neon.specs.Arm.{bit_at, ones, equal_run, lanes};
ghost use Rattle.saturation.specs.Family.{bits_lane_z};

use trees::BitwiseUnary;
use wide::word::power;

// Bit j.
fn bit(a: u64, j: u64) -> u64
    requires { j < 64 }
    ensures { (result ≡ bit_at j a) × (result ≤ 1) }
{
    a / power(j) % 2
}

// The ones among the k low bits.
fn count_ones(k: u64, a: u64) -> u64
    requires { k ≤ 64 }
    ensures { result ≡ ones k a }
{
    let mut r = 0;
    for j in 0..k {
        r += bit(a, j);
    }
    r
}

// The bits from k - 1 down that are t.
fn run_of(t: u64, k: u64, a: u64) -> u64
    requires { k ≤ 64 }
    ensures { result ≡ equal_run t k a }
{
    for j in (0..k).rev() {
        if bit(a, j) != t {
            return k - 1 - j;
        }
    }
    k
}

fn reversed(n: u64, a: u64) -> u64
    requires { n ≤ 64 }
    ensures { result ≡ lanes 1 n (λ j. bit_at (n - 1 - j) a) }
{
    let mut r = 0;
    for j in 0..n {
        r += bit(a, n - 1 - j) * power(j);
    }
    r
}

pub fn bits_lane(kind: BitwiseUnary, n: u64, a: u64) -> u64
    requires { (0 < n) × (n ≤ 64) }
    ensures { result ≡ bits_lane_z kind n a }
{
    match kind {
        BitwiseUnary::PopulationCount => count_ones(n, a),
        BitwiseUnary::LeadingZeros => run_of(0, n, a),
        BitwiseUnary::LeadingSignBits => run_of(bit(a, n - 1), n - 1, a),
        BitwiseUnary::ReverseBits => reversed(n, a),
    }
}
