// Whether a lane saturates: one bit over the lane's sources.
#![tactic(auto)]

ghost use Rattle.std.specs.Prelude.{◌≡◌, [], ◌∷◌, ◌+◌, ◌≤◌, ◌<◌};
ghost use Rattle.pool.specs.Growth.{Room};
ghost use Rattle.trees.specs.Arith.{kind_to, kind_bits};
ghost use Rattle.lower.specs.Builds.{Builds2, BuildsIf};
ghost use Rattle.lower_kinds.specs.Sources.{uses_second, KindIn};
ghost use Rattle.saturation.specs.Bits.{saturating_bit, mixed_sign_bit};

use lower_kinds::operators::mixed_to;
use pool::{Built, Node};
use terms::BinOp;
use trees::{SaturateTo, SaturatingKind};

pub mod clip;
pub mod shift;

// A lane of the saturating kinds; `to` is the range that the kind clamps into.
pub fn saturating_bit(
    pool: &mut [u64],
    count: usize,
    kind: SaturatingKind,
    to: SaturateTo,
    a: Node,
    b: Node,
    lane_bits: u64,
    signed_sources: bool,
) -> Built
    requires room { Room pool.old count 18 }
    requires a_lt_count { (a.0 < count) × (b.0 < count) × (1 ≤ lane_bits) × (lane_bits ≤ 64) × KindIn kind lane_bits × (kind_to kind ≡ Some to) }
    ensures { BuildsIf pool.old count pool.new result 18 a (kind_bits kind lane_bits) (uses_second kind) b (kind_bits kind lane_bits)
        1 (λ a b. saturating_bit kind a b lane_bits signed_sources) }
{
    let wide = lower_exact::exact_bits(kind, lane_bits);
    let value = lower_exact::exact_lane(pool, count, kind, a, b, lane_bits, signed_sources);
    clip::clip(pool, value.count, value.node, wide, lane_bits, to)
}

// A lane of SUQADD or USQADD.
pub fn mixed_bit(
    pool: &mut [u64],
    count: usize,
    destination_signed: bool,
    d: Node,
    a: Node,
    lane_bits: u64,
) -> Built
    requires room { Room pool.old count 12 }
    requires d_lt_count { (d.0 < count) × (a.0 < count) × (1 ≤ lane_bits) × (lane_bits ≤ 64) }
    ensures { Builds2 pool.old count pool.new result 12 d lane_bits a lane_bits 1
        (λ d a. mixed_sign_bit destination_signed d a lane_bits) (d.0 ∷ a.0 ∷ []) }
{
    let wide = lane_bits + 2;
    let other = !destination_signed;
    let to = mixed_to(destination_signed);
    let sum = lower_exact::join(
        pool,
        count,
        BinOp::Add,
        d,
        destination_signed,
        a,
        other,
        lane_bits,
        wide,
    );
    clip::clip(pool, sum.count, sum.node, wide, lane_bits, to)
}
