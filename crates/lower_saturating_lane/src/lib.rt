// The Rust's neon/lower/arith.rs: saturating_lane, one lane of the saturating, halving and narrowing operations. Each kind computes at
// a width where its result cannot overflow (lower_exact), and brings it down.
#![tactic(auto)]

ghost use Rattle.std.specs.Prelude.{[], ◌∷◌, ◌≤◌, ◌<◌};
ghost use Rattle.pool.specs.Growth.{Room};
ghost use Rattle.trees.specs.Arith.{kind_bits};
ghost use Rattle.trees.specs.Trees.{saturating_lane};
ghost use Rattle.lower.specs.Builds.{Builds1, BuildsIf};
ghost use Rattle.lower_kinds.specs.Sources.{uses_second, KindIn};
ghost use Rattle.lower_saturating_lane.specs.Narrow.{narrowed_plain};

use lower_exact::{exact_bits, exact_lane, kind_to};
use pool::{Bit, Built, Node};
use trees::{SaturateTo, SaturatingKind};

// A halved sum needs no clamp: it always fits. SHRN and RSHRN drop the bits that do not fit: with the shift bounded by the lane, each that
// stays is one of the source.
fn narrowed(
    pool: &mut [u64],
    count: usize,
    to: Option<SaturateTo>,
    value: Node,
    wide: u64,
    lane_bits: u64,
) -> Built
    requires room { Room pool.old count 7 }
    requires value_lt_count { (value.0 < count) × (1 ≤ lane_bits) × (lane_bits ≤ 64) × (lane_bits ≤ wide) × (wide ≤ 128) }
    ensures { Builds1 pool.old count pool.new result 7 value wide lane_bits
        (λ v. narrowed_plain v wide lane_bits to) (value.0 ∷ []) }
{
    match to {
        None => pool_nodes::extract(pool, count, value, Bit(lane_bits - 1), Bit(0)),
        Some(target) => lower::arith::clamp(pool, count, value, wide, lane_bits, target),
    }
}

// One destination lane. `b` is read by the kinds of two sources alone.
pub fn saturating_lane(
    pool: &mut [u64],
    count: usize,
    kind: SaturatingKind,
    a: Node,
    b: Node,
    lane_bits: u64,
    signed_sources: bool,
) -> Built
    requires room { Room pool.old count 16 }
    requires a_lt_count { (a.0 < count) × (b.0 < count) × (1 ≤ lane_bits) × KindIn kind lane_bits }
    ensures { BuildsIf pool.old count pool.new result 16 a (kind_bits kind lane_bits) (uses_second kind) b (kind_bits kind lane_bits)
        lane_bits (λ a b. saturating_lane kind a b lane_bits signed_sources) }
{
    let wide = exact_bits(kind, lane_bits);
    let to = kind_to(kind);
    let exact = exact_lane(pool, count, kind, a, b, lane_bits, signed_sources);
    narrowed(pool, exact.count, to, exact.node, wide, lane_bits)
}
