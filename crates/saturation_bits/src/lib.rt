// Whether an instruction saturates: the bits of its lanes side by side, and the block's bit after it.
#![tactic(auto)]

ghost use Rattle.std.specs.Prelude.{true, cond, ◌≡◌, [], ◌+◌, ◌-◌, ◌*◌, ◌≤◌, ◌<◌};
ghost use Rattle.pool.specs.Growth.{Room};
ghost use Rattle.trees.specs.Arith.{kind_bits};
ghost use Rattle.trees.specs.Trees.{extract_lane};
ghost use Rattle.lower.specs.Builds.{Lowers, read, read_if, unread, Below};
ghost use Rattle.lower_kinds.specs.Sources.{uses_second, KindIn};
ghost use Rattle.lower_neon.specs.Family.{reads_second, reads_old, FamilyIn};
ghost use Rattle.lower_neon.proofs.Props.{FamilyIn-prop};
ghost use Rattle.saturation.specs.Bits.{saturating_bit, saturable as saturableOp, saturable_kind, saturable_to, saturable_shift};
ghost use Rattle.saturation_bits.specs.Lanes.{lane_at, bits_most, BitMade};

use lower::family::{Lanes, concat_each};
use lower_doubling_long::source_lane;
use lower_exact::kind_to;
use neon::Lane;
use pool::{Built, Node};
use saturation_at::doubling::doubling_at;
use saturation_at::{mixed_at, saturating_at, shift_at};
use terms::CmpOp;
use trees::{NeonOp, NeonShape, SaturatingKind, ShiftKind};

// A kind that clamps; there are no others here.
fn saturating_some(
    pool: &mut [u64],
    count: usize,
    kind: SaturatingKind,
    signed_sources: bool,
    first: Node,
    second: Node,
    lane_bits: u64,
    index: Lane,
) -> Built
    requires room { Room pool.old count 20 }
    requires first_lt_count { (first.0 < count) × Below (read_if (uses_second kind) second 0) count }
    requires le_lane_bits { (1 ≤ lane_bits) × (lane_bits ≤ 64) × KindIn kind lane_bits × (saturable_kind kind ≡ true)
        × (kind_bits kind lane_bits * index.0 + kind_bits kind lane_bits ≤ 128) }
    ensures { Lowers pool.old count pool.new result 20 1 unread (read first 128) (read_if (uses_second kind) second 128)
        (λ d a b. saturating_bit kind (extract_lane a (kind_bits kind lane_bits) index.0) (extract_lane b (kind_bits kind lane_bits) index.0)
        lane_bits signed_sources) [] }
{
    let range = kind_to(kind);
    match range {
        None => Built { node: first, count },
        Some(to) => {
            saturating_at(
                pool,
                count,
                kind,
                to,
                signed_sources,
                first,
                second,
                lane_bits,
                index,
            )
        }
    }
}

// The lane of the second factor: an element's, or the first's.
fn second_factor(by_element: bool, element: Lane, from: Lane) -> Lane
    ensures { result.0 ≡ cond by_element element.0 from.0 }
{
    if by_element {
        return element;
    }
    from
}

// The bits of the lanes of an operation that can saturate.
#[derive(Clone, Copy)]
struct LaneBits {
    shape: NeonShape,
    first: Node,
    second: Node,
    d: Node,
    ghost fits: { (8 ≤ shape.lane_bits) × (shape.lane_bits ≤ 64) × (shape.lane_bits * shape.lanes ≤ 128) × (saturableOp shape.op ≡ true) },
    ghost of_row: { FamilyIn shape.op shape.lane_bits shape.lanes shape.source_index.0 } by { FamilyIn-prop _ _ _ _ },
}

impl Lanes for LaneBits {
    ghost plan = { λ s. record {
      lanes = s.shape.lanes;
      bits = 1;
      nodes = 37;
      d = read_if (reads_old s.shape.op) s.d 128;
      first = read s.first 128;
      second = read_if (reads_second s.shape.op) s.second 128;
      tree = lane_at s.shape;
      ins = [];
    } };

    fn lanes(&self) -> u64 {
        self.shape.lanes
    }

    fn make(&self, pool: &mut [u64], count: usize, index: Lane) -> Built {
        let n = self.shape.lane_bits;
        let first = self.first;
        let second = self.second;
        let op = self.shape.op;
        match op {
            NeonOp::Shift { kind, signed } => shift_at(
                pool, count, kind, signed, first, second, n, index,
            ),
            NeonOp::MixedSignAdd { destination_signed } => mixed_at(
                pool,
                count,
                destination_signed,
                first,
                self.d,
                n,
                index,
            ),
            NeonOp::DoublingLong {
                combine,
                upper,
                by_element,
            } => {
                let from = source_lane(upper, self.shape.lanes, index);
                let with = second_factor(by_element, self.shape.source_index, from);
                doubling_at(
                    pool, count, combine, first, second, self.d, n, from, with, index,
                )
            }
            NeonOp::Saturating {
                kind,
                signed_sources: signed,
                upper: _,
            } => saturating_some(pool, count, kind, signed, first, second, n, index),
            // the other operations never saturate
            _ => Built { node: first, count },
        }
    }
}

// The block's bit after an instruction that can saturate, over the bit before it.
pub fn instruction_bit(
    pool: &mut [u64],
    count: usize,
    shape: NeonShape,
    first: Node,
    second: Node,
    d: Node,
    before: Node,
) -> Built
    requires room { Room pool.old count bits_most }
    requires first_lt_count { (first.0 < count) × Below (read_if (reads_second shape.op) second 0) count × Below (read_if (reads_old shape.op) d 0) count × (before.0 < count) }
    requires bound { (8 ≤ shape.lane_bits) × (shape.lane_bits ≤ 64) × (1 ≤ shape.lanes) × (shape.lane_bits * shape.lanes ≤ 128)
        × FamilyIn shape.op shape.lane_bits shape.lanes shape.source_index.0 × (saturableOp shape.op ≡ true) }
    ensures { BitMade pool.old count pool.new result shape first second d before }
{
    let lanes = shape.lanes;
    let each = LaneBits {
        shape,
        first,
        second,
        d,
    };
    let bits = concat_each(pool, count, &each);
    let zero = pool_nodes::konst(pool, bits.count, 0, 0, lanes);
    let none = pool_nodes::compare(pool, zero.count, CmpOp::Eq, bits.node, zero.node);
    let one = pool_nodes::konst(pool, none.count, 1, 0, 1);
    pool_nodes::ite(pool, one.count, none.node, before, one.node)
}
