// The sources that a kind uses: whether there is a second, and the bits of a source lane.
ghost use Rattle.std.specs.Prelude.{◌≡◌, ◌≤◌};
ghost use Rattle.trees.specs.Arith.{narrowing as narrowingTree, kind_bits};
ghost use Rattle.lower_kinds.specs.Sources.{is_register, uses_second};

use trees::{SaturatingKind, ShiftKind};

// The shifts whose amount is the second source.
pub fn is_register(kind: ShiftKind) -> bool
    ensures { result ≡ is_register kind }
{
    matches!(kind, ShiftKind::Register { .. })
}

// The saturating kinds of two sources.
pub fn uses_second(kind: SaturatingKind) -> bool
    ensures { result ≡ uses_second kind }
{
    matches!(
        kind,
        SaturatingKind::AddSub { .. }
            | SaturatingKind::Halving { .. }
            | SaturatingKind::DoublingMultiplyHigh { .. }
    )
}

// The saturating kinds whose source lanes have twice the bits of the result's.
pub fn narrowing(kind: SaturatingKind) -> bool
    ensures { result ≡ narrowingTree kind }
{
    matches!(
        kind,
        SaturatingKind::Narrow { .. } | SaturatingKind::ShiftNarrow { .. }
    )
}

// The bits of a source's lane.
pub fn source_bits(kind: SaturatingKind, lane_bits: u64) -> u64
    requires { lane_bits ≤ 64 }
    ensures { result ≡ kind_bits kind lane_bits }
{
    if narrowing(kind) {
        return lane_bits * 2;
    }
    lane_bits
}
