// The Rust's neon/lower/arith.rs: shift_lanes, the shifts lane by lane.
#![tactic(auto)]

ghost use Rattle.std.specs.Prelude.{[], ◌+◌, ◌*◌, ◌≤◌, ◌<◌};
ghost use Rattle.pool.specs.Growth.{Room};
ghost use Rattle.trees.specs.Trees.{shift_at, shift_lanes};
ghost use Rattle.lower.specs.Builds.{Lowers, read, read_if, unread, Below};
ghost use Rattle.lower_kinds.specs.Sources.{is_register, AmountIn};
ghost use Rattle.lower_kinds.proofs.Props.{AmountIn-prop};
ghost use Rattle.lower_shift.specs.Lanes.{MadeAmount};

use lower::family::{Lanes, concat_each};
use lower_kinds::sources::is_register;
use lower_shift_lane::shift_lane;
use neon::Lane;
use pool::{Bit, Built, Node};
use trees::ShiftKind;

// The signed low byte of lane `index`, a register shift's amount, at a lane's width. The byte is cut from the source itself: the lane
// gets no node if it is wider.
pub fn signed_amount(
    pool: &mut [u64],
    count: usize,
    second: Node,
    lane_bits: u64,
    index: Lane,
) -> Built
    requires room { Room pool.old count 2 }
    requires second_lt_count { (second.0 < count) × (8 ≤ lane_bits) × (lane_bits ≤ 64) × (lane_bits * index.0 + lane_bits ≤ 128) }
    ensures { MadeAmount pool.old count pool.new result second lane_bits index.0 }
{
    if 8 < lane_bits {
        let lo = lane_bits * index.0;
        let byte = lower_simd::extract_collapsing(pool, count, second, Bit(7 + lo), Bit(lo));
        return pool_nodes::sign_ext(pool, byte.count, byte.node, lane_bits);
    }
    lower_simd::extract_lane(pool, count, second, lane_bits, index)
}

// The lanes of `first`, shifted by an immediate or by the lanes of `second`.
#[derive(Clone, Copy)]
struct Shifts {
    kind: ShiftKind,
    signed: bool,
    first: Node,
    second: Node,
    lane_bits: u64,
    lanes: u64,
    ghost fits: { (8 ≤ lane_bits) × (lane_bits ≤ 64) × (lane_bits * lanes ≤ 128) },
    ghost of_row: { AmountIn kind lane_bits } by { AmountIn-prop kind lane_bits },
}

impl Lanes for Shifts {
    ghost plan = { λ s. record {
      lanes = s.lanes;
      bits = s.lane_bits;
      nodes = 24;
      d = unread;
      first = read s.first (s.lane_bits * s.lanes);
      second = read_if (is_register s.kind) s.second (s.lane_bits * s.lanes);
      tree = λ d a b. shift_at s.kind s.signed s.lane_bits a b;
      ins = [];
    } };

    fn lanes(&self) -> u64 {
        self.lanes
    }

    fn make(&self, pool: &mut [u64], count: usize, index: Lane) -> Built {
        let value = lower_simd::extract_lane(pool, count, self.first, self.lane_bits, index);
        if is_register(self.kind) {
            let amount = signed_amount(pool, value.count, self.second, self.lane_bits, index);
            return shift_lane(
                pool,
                amount.count,
                self.kind,
                self.signed,
                value.node,
                amount.node,
                self.lane_bits,
            );
        }
        shift_lane(
            pool,
            value.count,
            self.kind,
            self.signed,
            value.node,
            value.node,
            self.lane_bits,
        )
    }
}

// The shifts, lane by lane.
#[tactic(auto, unfolding(trees::specs::Arith::shift_lanes))]
pub fn shift_lanes(
    pool: &mut [u64],
    count: usize,
    kind: ShiftKind,
    signed: bool,
    first: Node,
    second: Node,
    lane_bits: u64,
    lanes: u64,
) -> Built
    requires room { Room pool.old count (25 * lanes) }
    requires first_lt_count { (first.0 < count) × Below (read_if (is_register kind) second 0) count }
    requires le_lane_bits { (8 ≤ lane_bits) × (lane_bits ≤ 64) × AmountIn kind lane_bits × (1 ≤ lanes) × (lane_bits * lanes ≤ 128) }
    ensures { Lowers pool.old count pool.new result (25 * lanes) (lane_bits * lanes) unread (read first (lane_bits * lanes))
        (read_if (is_register kind) second (lane_bits * lanes)) (λ d a b. shift_lanes kind signed a b lane_bits lanes) [] }
{
    let shifts = Shifts {
        kind,
        signed,
        first,
        second,
        lane_bits,
        lanes,
    };
    concat_each(pool, count, &shifts)
}
