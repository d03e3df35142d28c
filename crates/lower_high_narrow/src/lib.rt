// The Rust's neon/lower/width.rs: high_narrow_lane and high_narrow_lanes, the high halves of sums and differences.
#![tactic(auto)]

ghost use Rattle.std.specs.Prelude.{[], ◌∷◌, ◌+◌, ◌-◌, ◌*◌, ◌≤◌, ◌<◌};
ghost use Rattle.pool.specs.Growth.{Room};
ghost use Rattle.trees.specs.Trees.{high_at, high_narrow_lane, high_narrow_lanes};
ghost use Rattle.lower.specs.Builds.{Builds2, Lowers, read, read_if, unread, with_lower, Below};

use lower::family::{Lanes, concat_each};
use lower_kinds::operators::sum_op;
use neon::Lane;
use pool::{Bit, Built, Node};
use wide::word::power;

// The upper half of a sum or a difference. Rounding adds half of the place above the bits that are dropped.
fn high_narrow_lane(
    pool: &mut [u64],
    count: usize,
    subtract: bool,
    rounding: bool,
    a: Node,
    b: Node,
    lane_bits: u64,
) -> Built
    requires room { Room pool.old count 4 }
    requires a_lt_count { (a.0 < count) × (b.0 < count) × (1 ≤ lane_bits) × (lane_bits ≤ 64) }
    ensures { Builds2 pool.old count pool.new result 4 a (lane_bits * 2) b (lane_bits * 2) lane_bits
        (λ a b. high_narrow_lane subtract rounding a b lane_bits) (a.0 ∷ b.0 ∷ []) }
{
    let source_bits = lane_bits * 2;
    let op = sum_op(subtract);
    let half = power(lane_bits - 1);
    let sum = pool_nodes::bv(pool, count, op, a, b);
    let value = lower::arith::plus_if(pool, sum.count, rounding, sum.node, half, source_bits);
    pool_nodes::extract(
        pool,
        value.count,
        value.node,
        Bit(source_bits - 1),
        Bit(lane_bits),
    )
}

// The new lanes alone, of source lanes twice as wide.
#[derive(Clone, Copy)]
struct HighHalves {
    subtract: bool,
    rounding: bool,
    first: Node,
    second: Node,
    lane_bits: u64,
    lanes: u64,
    ghost fits: { (1 ≤ lane_bits) × (lane_bits ≤ 64) × (lane_bits * 2 * lanes ≤ 128) },
}

impl Lanes for HighHalves {
    ghost plan = { λ s. record {
      lanes = s.lanes;
      bits = s.lane_bits;
      nodes = 6;
      d = unread;
      first = read s.first (s.lane_bits * 2 * s.lanes);
      second = read s.second (s.lane_bits * 2 * s.lanes);
      tree = λ d a b. high_at s.subtract s.rounding s.lane_bits a b;
      ins = [];
    } };

    fn lanes(&self) -> u64 {
        self.lanes
    }

    fn make(&self, pool: &mut [u64], count: usize, index: Lane) -> Built {
        let source_bits = self.lane_bits * 2;
        let a = lower_simd::extract_lane(pool, count, self.first, source_bits, index);
        let b = lower_simd::extract_lane(pool, a.count, self.second, source_bits, index);
        high_narrow_lane(
            pool,
            b.count,
            self.subtract,
            self.rounding,
            a.node,
            b.node,
            self.lane_bits,
        )
    }
}

// ADDHN, SUBHN, RADDHN and RSUBHN, and their 2 forms, which keep the lower half of the old destination.
pub fn high_narrow_lanes(
    pool: &mut [u64],
    count: usize,
    subtract: bool,
    rounding: bool,
    upper: bool,
    first: Node,
    second: Node,
    d: Node,
    lane_bits: u64,
    lanes: u64,
) -> Built
    requires room { Room pool.old count (7 * lanes + 2) }
    requires first_lt_count { (first.0 < count) × (second.0 < count) × Below (read_if upper d 0) count }
    requires le_lane_bits { (8 ≤ lane_bits) × (lane_bits ≤ 32) × (1 ≤ lanes) × (lane_bits * 2 * lanes ≤ 128) }
    ensures { Lowers pool.old count pool.new result (7 * lanes + 2) (with_lower upper (lane_bits * lanes))
        (read_if upper d (lane_bits * lanes * 2)) (read first (lane_bits * 2 * lanes)) (read second (lane_bits * 2 * lanes))
        (λ d a b. high_narrow_lanes subtract rounding upper a b d lane_bits lanes) [] }
{
    let halves = HighHalves {
        subtract,
        rounding,
        first,
        second,
        lane_bits,
        lanes,
    };
    let new = concat_each(pool, count, &halves);
    lower::arith::keep_lower(pool, new.count, upper, new.node, d, lane_bits, lanes)
}
