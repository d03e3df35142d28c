// Whether lane `index` of an instruction saturates: one bit over the whole registers of its sources. The lanes are cut from the registers
// themselves, so that a read of a low half needs no node.
#![tactic(auto)]

ghost use Rattle.std.specs.Prelude.{true, ◌≡◌, [], ◌+◌, ◌*◌, ◌≤◌, ◌<◌};
ghost use Rattle.pool.specs.Growth.{Room};
ghost use Rattle.trees.specs.Arith.{kind_to, kind_bits};
ghost use Rattle.trees.specs.Trees.{extract_lane};
ghost use Rattle.lower.specs.Builds.{Lowers, read, read_if, unread, Below};
ghost use Rattle.lower_kinds.specs.Sources.{is_register, AmountIn, uses_second, KindIn};
ghost use Rattle.saturation.specs.Bits.{shift_bit, saturating_bit, mixed_sign_bit, saturable_shift};

use lower_kinds::sources::{is_register, source_bits, uses_second};
use lower_shift::signed_amount;
use neon::Lane;
use pool::{Built, Node};
use saturation_lane::shift::shift_bit;
use saturation_lane::{mixed_bit, saturating_bit};
use trees::{SaturateTo, SaturatingKind, ShiftKind};

pub mod doubling;

pub fn shift_at(
    pool: &mut [u64],
    count: usize,
    kind: ShiftKind,
    signed: bool,
    first: Node,
    second: Node,
    lane_bits: u64,
    index: Lane,
) -> Built
    requires room { Room pool.old count 15 }
    requires first_lt_count { (first.0 < count) × Below (read_if (is_register kind) second 0) count }
    requires le_lane_bits { (8 ≤ lane_bits) × (lane_bits ≤ 64) × AmountIn kind lane_bits × (saturable_shift kind ≡ true) × (lane_bits * index.0 + lane_bits ≤ 128) }
    ensures { Lowers pool.old count pool.new result 15 1 unread (read first 128) (read_if (is_register kind) second 128)
        (λ d a b. shift_bit kind signed (extract_lane a lane_bits index.0) (extract_lane b lane_bits index.0) lane_bits) [] }
{
    let value = lower_simd::extract_lane(pool, count, first, lane_bits, index);
    if is_register(kind) {
        let amount = signed_amount(pool, value.count, second, lane_bits, index);
        return shift_bit(
            pool,
            amount.count,
            kind,
            signed,
            value.node,
            amount.node,
            lane_bits,
        );
    }
    shift_bit(
        pool,
        value.count,
        kind,
        signed,
        value.node,
        value.node,
        lane_bits,
    )
}

pub fn mixed_at(
    pool: &mut [u64],
    count: usize,
    destination_signed: bool,
    first: Node,
    d: Node,
    lane_bits: u64,
    index: Lane,
) -> Built
    requires room { Room pool.old count 14 }
    requires first_lt_count { (first.0 < count) × (d.0 < count) }
    requires le_lane_bits { (1 ≤ lane_bits) × (lane_bits ≤ 64) × (lane_bits * index.0 + lane_bits ≤ 128) }
    ensures { Lowers pool.old count pool.new result 14 1 (read d 128) (read first 128) unread
        (λ d a b. mixed_sign_bit destination_signed (extract_lane d lane_bits index.0) (extract_lane a lane_bits index.0) lane_bits) [] }
{
    let prior = lower_simd::extract_lane(pool, count, d, lane_bits, index);
    let addend = lower_simd::extract_lane(pool, prior.count, first, lane_bits, index);
    mixed_bit(
        pool,
        addend.count,
        destination_signed,
        prior.node,
        addend.node,
        lane_bits,
    )
}

pub fn saturating_at(
    pool: &mut [u64],
    count: usize,
    kind: SaturatingKind,
    to: SaturateTo,
    signed_sources: bool,
    first: Node,
    second: Node,
    lane_bits: u64,
    index: Lane,
) -> Built
    requires room { Room pool.old count 20 }
    requires first_lt_count { (first.0 < count) × Below (read_if (uses_second kind) second 0) count }
    requires le_lane_bits { (1 ≤ lane_bits) × (lane_bits ≤ 64) × KindIn kind lane_bits × (kind_to kind ≡ Some to)
        × (kind_bits kind lane_bits * index.0 + kind_bits kind lane_bits ≤ 128) }
    ensures { Lowers pool.old count pool.new result 20 1 unread (read first 128) (read_if (uses_second kind) second 128)
        (λ d a b. saturating_bit kind (extract_lane a (kind_bits kind lane_bits) index.0) (extract_lane b (kind_bits kind lane_bits) index.0)
        lane_bits signed_sources) [] }
{
    let bits = source_bits(kind, lane_bits);
    let a = lower_simd::extract_lane(pool, count, first, bits, index);
    if uses_second(kind) {
        let b = lower_simd::extract_lane(pool, a.count, second, bits, index);
        return saturating_bit(
            pool,
            b.count,
            kind,
            to,
            a.node,
            b.node,
            lane_bits,
            signed_sources,
        );
    }
    saturating_bit(
        pool,
        a.count,
        kind,
        to,
        a.node,
        a.node,
        lane_bits,
        signed_sources,
    )
}
