// The Rust's neon/lower/arith.rs: mixed_sign_add_lanes, the sums of a signed and an unsigned number.
#![tactic(auto)]

ghost use Rattle.std.specs.Prelude.{[], ◌*◌, ◌≤◌, ◌<◌};
ghost use Rattle.pool.specs.Growth.{Room};
ghost use Rattle.trees.specs.Trees.{mixed_at, mixed_sign_add_lanes};
ghost use Rattle.lower.specs.Builds.{Lowers, read, unread};

use lower::family::{Lanes, concat_each};
use lower_kinds::operators::mixed_to;
use neon::Lane;
use pool::{Built, Node};
use terms::BinOp;

// The sums, of the source `first` and the old destination `d`.
#[derive(Clone, Copy)]
struct Sums {
    destination_signed: bool,
    first: Node,
    d: Node,
    lane_bits: u64,
    lanes: u64,
    ghost fits: { (1 ≤ lane_bits) × (lane_bits ≤ 64) × (lane_bits * lanes ≤ 128) },
}

impl Lanes for Sums {
    ghost plan = { λ s. record {
      lanes = s.lanes;
      bits = s.lane_bits;
      nodes = 12;
      d = read s.d (s.lane_bits * s.lanes);
      first = read s.first (s.lane_bits * s.lanes);
      second = unread;
      tree = λ d a b. mixed_at s.destination_signed s.lane_bits d a;
      ins = [];
    } };

    fn lanes(&self) -> u64 {
        self.lanes
    }

    // Lane `index` of the sum, at two bits more than a lane: a signed and an unsigned number of n bits reach 3 * 2^(n - 1) - 2 together,
    // which is above the signed numbers of n + 1 bits. There such a sum would be negative, and be clamped to the wrong end.
    fn make(&self, pool: &mut [u64], count: usize, index: Lane) -> Built {
        let wide = self.lane_bits + 2;
        let previous = lower_simd::extract_lane(pool, count, self.d, self.lane_bits, index);
        let addend = lower_simd::extract_lane(
            pool,
            previous.count,
            self.first,
            self.lane_bits,
            index,
        );
        let sum = lower_exact::join(
            pool,
            addend.count,
            BinOp::Add,
            previous.node,
            self.destination_signed,
            addend.node,
            !self.destination_signed,
            self.lane_bits,
            wide,
        );
        lower::arith::clamp(
            pool,
            sum.count,
            sum.node,
            wide,
            self.lane_bits,
            mixed_to(self.destination_signed),
        )
    }
}

// SUQADD and USQADD: the source is added to the old destination, whose sign is the other one.
#[tactic(auto, unfolding(trees::specs::Arith::mixed_sign_add_lanes))]
pub fn mixed_sign_add_lanes(
    pool: &mut [u64],
    count: usize,
    destination_signed: bool,
    first: Node,
    d: Node,
    lane_bits: u64,
    lanes: u64,
) -> Built
    requires room { Room pool.old count (13 * lanes) }
    requires first_lt_count { (first.0 < count) × (d.0 < count) }
    requires le_lane_bits { (1 ≤ lane_bits) × (lane_bits ≤ 64) × (1 ≤ lanes) × (lane_bits * lanes ≤ 128) }
    ensures { Lowers pool.old count pool.new result (13 * lanes) (lane_bits * lanes) (read d (lane_bits * lanes))
        (read first (lane_bits * lanes)) unread (λ d a b. mixed_sign_add_lanes destination_signed a d lane_bits lanes) [] }
{
    let sums = Sums {
        destination_signed,
        first,
        d,
        lane_bits,
        lanes,
    };
    concat_each(pool, count, &sums)
}
