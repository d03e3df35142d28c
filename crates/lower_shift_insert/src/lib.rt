// The Rust's neon/lower/arith.rs: shift_insert_lanes and low_bits.
#![tactic(auto)]

ghost use Rattle.std.specs.Prelude.{◌≡◌, [], ◌∷◌, ◌+◌, ◌*◌, ◌-◌, ◌≤◌, ◌<◌, ◌^◌};
ghost use Rattle.pool.specs.Growth.{Room};
ghost use Rattle.trees.specs.Lower.{unsigned_max};
ghost use Rattle.trees.specs.Arith.{kept_bits};
ghost use Rattle.trees.specs.Trees.{insert_at, shift_insert_lanes};
ghost use Rattle.lower.specs.Builds.{Lowers, read, unread};

use lower::family::{Lanes, concat_each};
use lower_kinds::operators::insert_op;
use neon::Lane;
use pool::{Built, Node};
use terms::BinOp;
use wide::word::unsigned_max;

// A mask of the low bits, none for SLI by 0 and for SRI by the whole lane. The test is the Rust's, whose unsigned_max gives nothing
// for 0 bits.
fn low_bits(bits: u64) -> u64
    requires { bits ≤ 64 }
    ensures { result ≡ unsigned_max bits }
{
    if bits == 0 {
        return 0;
    }
    unsigned_max(bits)
}

// The bits of the old destination that an insert keeps: the low ones, or the high ones.
fn kept_bits(left: bool, lane_bits: u64, shift: u64) -> u64
    requires { (shift ≤ lane_bits) × (lane_bits ≤ 64) }
    ensures { result ≡ kept_bits left lane_bits shift }
{
    if left {
        return low_bits(shift);
    }
    // the Rust's ^: the low bits are among all of them
    unsigned_max(lane_bits) - low_bits(lane_bits - shift)
}

// The inserts of `first` into the old destination `d`, over the node of their amount. `kept` is a mask of the bits of `d` that stay.
#[derive(Clone, Copy)]
struct Inserts {
    left: bool,
    kept: u64,
    amount: Node,
    first: Node,
    d: Node,
    lane_bits: u64,
    lanes: u64,
    ghost fits: { (1 ≤ lane_bits) × (lane_bits ≤ 64) × (lane_bits * lanes ≤ 128) × (kept < 2 ^ lane_bits) },
}

impl Lanes for Inserts {
    ghost plan = { λ s. record {
      lanes = s.lanes;
      bits = s.lane_bits;
      nodes = 6;
      d = read s.d (s.lane_bits * s.lanes);
      first = read s.first (s.lane_bits * s.lanes);
      second = read s.amount s.lane_bits;
      tree = λ d a amount. insert_at s.left s.kept s.lane_bits d a amount;
      ins = s.amount.0 ∷ [];
    } };

    fn lanes(&self) -> u64 {
        self.lanes
    }

    fn make(&self, pool: &mut [u64], count: usize, index: Lane) -> Built {
        let a = lower_simd::extract_lane(pool, count, self.first, self.lane_bits, index);
        let previous = lower_simd::extract_lane(pool, a.count, self.d, self.lane_bits, index);
        let op = insert_op(self.left);
        let shifted = pool_nodes::bv(pool, previous.count, op, a.node, self.amount);
        let mask = pool_nodes::konst(pool, shifted.count, self.kept, 0, self.lane_bits);
        let rest = pool_nodes::bv(pool, mask.count, BinOp::And, previous.node, mask.node);
        pool_nodes::bv(pool, rest.count, BinOp::Or, shifted.node, rest.node)
    }
}

// SLI and SRI: the shifted source over the bits of the old destination that the shift leaves.
pub fn shift_insert_lanes(
    pool: &mut [u64],
    count: usize,
    left: bool,
    shift: u64,
    first: Node,
    d: Node,
    lane_bits: u64,
    lanes: u64,
) -> Built
    requires room { Room pool.old count (7 * lanes + 1) }
    requires first_lt_count { (first.0 < count) × (d.0 < count) × (shift ≤ lane_bits) }
    requires le_lane_bits { (1 ≤ lane_bits) × (lane_bits ≤ 64) × (1 ≤ lanes) × (lane_bits * lanes ≤ 128) }
    ensures { Lowers pool.old count pool.new result (7 * lanes + 1) (lane_bits * lanes) (read d (lane_bits * lanes))
        (read first (lane_bits * lanes)) unread (λ d a b. shift_insert_lanes left shift a d lane_bits lanes) [] }
{
    let amount = pool_nodes::konst(pool, count, shift, 0, lane_bits);
    let kept = kept_bits(left, lane_bits, shift);
    let inserts = Inserts {
        left,
        kept,
        amount: amount.node,
        first,
        d,
        lane_bits,
        lanes,
    };
    concat_each(pool, amount.count, &inserts)
}
