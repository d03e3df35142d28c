// The Rust's neon/lower/arith.rs: bitwise_unary_lanes, the functions of a lane's own bits lane by lane.
#![tactic(auto)]

ghost use Rattle.std.specs.Prelude.{[], ◌+◌, ◌*◌, ◌≤◌, ◌<◌};
ghost use Rattle.pool.specs.Growth.{Room};
ghost use Rattle.trees.specs.Trees.{bitwise_at, bitwise_unary_lanes};
ghost use Rattle.lower.specs.Builds.{Lowers, read, unread};

use lower::family::{Lanes, concat_each};
use lower_bitwise_unary_lane::bitwise_unary_lane;
use neon::Lane;
use pool::{Bit, Built, Node};
use trees::BitwiseUnary;

// The functions of the own bits of each lane of `first`.
#[derive(Clone, Copy)]
struct OwnBits {
    kind: BitwiseUnary,
    first: Node,
    lane_bits: u64,
    lanes: u64,
    ghost fits: { (2 ≤ lane_bits) × (lane_bits ≤ 64) × (lane_bits * lanes ≤ 128) },
}

impl Lanes for OwnBits {
    ghost plan = { λ s. record {
      lanes = s.lanes;
      bits = s.lane_bits;
      nodes = 5 * s.lane_bits + 1;
      d = unread;
      first = read s.first (s.lane_bits * s.lanes);
      second = unread;
      tree = λ d a b. bitwise_at s.kind s.lane_bits a;
      ins = [];
    } };

    fn lanes(&self) -> u64 {
        self.lanes
    }

    fn make(&self, pool: &mut [u64], count: usize, index: Lane) -> Built {
        // the bits are cut from below every Extract, so the lane itself gets no node
        let lo = self.lane_bits * index.0;
        let from = lower_simd::cut_from(pool, self.first, Bit(lo + self.lane_bits - 1));
        bitwise_unary_lane(
            pool,
            count,
            self.kind,
            from.node,
            Bit(lo + from.by.0),
            self.lane_bits,
        )
    }
}

// CNT, CLZ, CLS and RBIT, lane by lane.
#[tactic(auto, unfolding(trees::specs::Arith::bitwise_unary_lanes))]
pub fn bitwise_unary_lanes(
    pool: &mut [u64],
    count: usize,
    kind: BitwiseUnary,
    first: Node,
    lane_bits: u64,
    lanes: u64,
) -> Built
    requires room { Room pool.old count ((5 * lane_bits + 2) * lanes) }
    requires first_lt_count { first.0 < count }
    requires le_lane_bits { (2 ≤ lane_bits) × (lane_bits ≤ 64) × (1 ≤ lanes) × (lane_bits * lanes ≤ 128) }
    ensures { Lowers pool.old count pool.new result ((5 * lane_bits + 2) * lanes) (lane_bits * lanes) unread
        (read first (lane_bits * lanes)) unread (λ d a b. bitwise_unary_lanes kind a lane_bits lanes) [] }
{
    let own = OwnBits {
        kind,
        first,
        lane_bits,
        lanes,
    };
    concat_each(pool, count, &own)
}
