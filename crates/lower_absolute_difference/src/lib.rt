// The Rust's neon/lower/arith.rs: absolute_difference_lane and absolute_difference_lanes, alone or added to the old destination.
#![tactic(auto)]

ghost use Rattle.std.specs.Prelude.{[], ◌∷◌, ◌*◌, ◌≤◌, ◌<◌};
ghost use Rattle.pool.specs.Growth.{Room};
ghost use Rattle.trees.specs.Arith.{absolute_difference_lane};
ghost use Rattle.trees.specs.Trees.{difference_at, absolute_difference_lanes};
ghost use Rattle.lower.specs.Builds.{Builds2, Lowers, read, read_if, Below};

use lower::family::{Lanes, concat_each};
use lower_kinds::operators::less_op;
use neon::Lane;
use pool::{Built, Node};
use terms::BinOp;

// The lesser lane taken from the greater. A lane's bits hold the difference, read unsigned, so no more are needed.
fn absolute_difference_lane(
    pool: &mut [u64],
    count: usize,
    signed: bool,
    a: Node,
    b: Node,
    lane_bits: u64,
) -> Built
    requires room { Room pool.old count 4 }
    requires a_lt_count { (a.0 < count) × (b.0 < count) × (1 ≤ lane_bits) × (lane_bits ≤ 64) }
    ensures { Builds2 pool.old count pool.new result 4 a lane_bits b lane_bits lane_bits
        (λ a b. absolute_difference_lane signed a b) (a.0 ∷ b.0 ∷ []) }
{
    let op = less_op(signed);
    let less = pool_nodes::compare(pool, count, op, a, b);
    let up = pool_nodes::bv(pool, less.count, BinOp::Sub, b, a);
    let down = pool_nodes::bv(pool, up.count, BinOp::Sub, a, b);
    pool_nodes::ite(pool, down.count, less.node, up.node, down.node)
}

// The differences of `first` and `second`, added to the old destination's lanes if `accumulate` asks it.
#[derive(Clone, Copy)]
struct Differences {
    signed: bool,
    accumulate: bool,
    first: Node,
    second: Node,
    d: Node,
    lane_bits: u64,
    lanes: u64,
    ghost fits: { (1 ≤ lane_bits) × (lane_bits ≤ 64) × (lane_bits * lanes ≤ 128) },
}

impl Lanes for Differences {
    ghost plan = { λ s. record {
      lanes = s.lanes;
      bits = s.lane_bits;
      nodes = 8;
      d = read_if s.accumulate s.d (s.lane_bits * s.lanes);
      first = read s.first (s.lane_bits * s.lanes);
      second = read s.second (s.lane_bits * s.lanes);
      tree = λ d a b. difference_at s.signed s.accumulate s.lane_bits d a b;
      ins = [];
    } };

    fn lanes(&self) -> u64 {
        self.lanes
    }

    fn make(&self, pool: &mut [u64], count: usize, index: Lane) -> Built {
        let a = lower_simd::extract_lane(pool, count, self.first, self.lane_bits, index);
        let b = lower_simd::extract_lane(pool, a.count, self.second, self.lane_bits, index);
        let difference = absolute_difference_lane(
            pool,
            b.count,
            self.signed,
            a.node,
            b.node,
            self.lane_bits,
        );
        if self.accumulate {
            let previous = lower_simd::extract_lane(
                pool,
                difference.count,
                self.d,
                self.lane_bits,
                index,
            );
            return pool_nodes::bv(
                pool,
                previous.count,
                BinOp::Add,
                previous.node,
                difference.node,
            );
        }
        difference
    }
}

// SABD and UABD, SABA and UABA.
#[tactic(auto, unfolding(trees::specs::Arith::absolute_difference_lanes))]
pub fn absolute_difference_lanes(
    pool: &mut [u64],
    count: usize,
    signed: bool,
    accumulate: bool,
    first: Node,
    second: Node,
    d: Node,
    lane_bits: u64,
    lanes: u64,
) -> Built
    requires room { Room pool.old count (9 * lanes) }
    requires first_lt_count { (first.0 < count) × (second.0 < count) × Below (read_if accumulate d 0) count }
    requires le_lane_bits { (1 ≤ lane_bits) × (lane_bits ≤ 64) × (1 ≤ lanes) × (lane_bits * lanes ≤ 128) }
    ensures { Lowers pool.old count pool.new result (9 * lanes) (lane_bits * lanes) (read_if accumulate d (lane_bits * lanes))
        (read first (lane_bits * lanes)) (read second (lane_bits * lanes)) (λ d a b. absolute_difference_lanes signed accumulate a b d lane_bits lanes) [] }
{
    let differences = Differences {
        signed,
        accumulate,
        first,
        second,
        d,
        lane_bits,
        lanes,
    };
    concat_each(pool, count, &differences)
}
