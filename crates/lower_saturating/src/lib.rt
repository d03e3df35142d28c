// The Rust's neon/lower/arith.rs: saturating_lanes, the saturating, halving and narrowing operations lane by lane.
#![tactic(auto)]

ghost use Rattle.std.specs.Prelude.{◌≡◌, true, [], ◌+◌, ◌-◌, ◌*◌, ◌≤◌, ◌<◌};
ghost use Rattle.pool.specs.Growth.{Room};
ghost use Rattle.trees.specs.Arith.{kind_bits};
ghost use Rattle.trees.specs.Trees.{saturating_at, saturating_lanes};
ghost use Rattle.lower.specs.Builds.{Lowers, read, read_if, unread, Below, with_lower};
ghost use Rattle.lower_kinds.specs.Sources.{uses_second, KindIn};
ghost use Rattle.lower_kinds.proofs.Props.{KindIn-prop};

use lower::family::{Lanes, concat_each};
use lower_kinds::sources::{source_bits, uses_second};
use neon::Lane;
use pool::{Built, Node};
use trees::SaturatingKind;

// The new lanes alone, of the lanes of `first` and, of some kinds, of `second`.
#[derive(Clone, Copy)]
struct Saturated {
    kind: SaturatingKind,
    signed_sources: bool,
    first: Node,
    second: Node,
    lane_bits: u64,
    lanes: u64,
    ghost fits: { (1 ≤ lane_bits) × (lane_bits ≤ 64) × (kind_bits kind lane_bits * lanes ≤ 128) },
    ghost of_row: { KindIn kind lane_bits } by { KindIn-prop kind lane_bits },
}

impl Lanes for Saturated {
    ghost plan = { λ s. record {
      lanes = s.lanes;
      bits = s.lane_bits;
      nodes = 18;
      d = unread;
      first = read s.first (kind_bits s.kind s.lane_bits * s.lanes);
      second = read_if (uses_second s.kind) s.second (kind_bits s.kind s.lane_bits * s.lanes);
      tree = λ d a b. saturating_at s.kind s.signed_sources s.lane_bits a b;
      ins = [];
    } };

    fn lanes(&self) -> u64 {
        self.lanes
    }

    fn make(&self, pool: &mut [u64], count: usize, index: Lane) -> Built {
        let bits = source_bits(self.kind, self.lane_bits);
        let a = lower_simd::extract_lane(pool, count, self.first, bits, index);
        let b = if uses_second(self.kind) {
            lower_simd::extract_lane(pool, a.count, self.second, bits, index)
        } else {
            a
        };
        lower_saturating_lane::saturating_lane(
            pool,
            b.count,
            self.kind,
            a.node,
            b.node,
            self.lane_bits,
            self.signed_sources,
        )
    }
}

// The 2 forms write the upper half of the destination and keep the lower one.
pub fn saturating_lanes(
    pool: &mut [u64],
    count: usize,
    kind: SaturatingKind,
    signed_sources: bool,
    upper: bool,
    first: Node,
    second: Node,
    d: Node,
    lane_bits: u64,
    lanes: u64,
) -> Built
    requires room { Room pool.old count (19 * lanes + 2) }
    requires first_lt_count { (first.0 < count) × Below (read_if (uses_second kind) second 0) count × Below (read_if upper d 0) count }
    requires le_lane_bits { (1 ≤ lane_bits) × (lane_bits ≤ 64) × KindIn kind lane_bits × (1 ≤ lanes) × (kind_bits kind lane_bits * lanes ≤ 128)
        × (upper ≡ true → lane_bits * lanes ≤ 64) }
    ensures { Lowers pool.old count pool.new result (19 * lanes + 2) (with_lower upper (lane_bits * lanes))
        (read_if upper d (lane_bits * lanes * 2)) (read first (kind_bits kind lane_bits * lanes))
        (read_if (uses_second kind) second (kind_bits kind lane_bits * lanes)) (λ d a b. saturating_lanes kind signed_sources upper a b d lane_bits lanes) [] }
{
    let saturated = Saturated {
        kind,
        signed_sources,
        first,
        second,
        lane_bits,
        lanes,
    };
    let new = concat_each(pool, count, &saturated);
    // keep_lower takes 64 bits of lanes at most, as a 2 form has them
    if upper {
        return lower::arith::keep_lower(pool, new.count, true, new.node, d, lane_bits, lanes);
    }
    new
}
