// The Rust's neon/lower/arith.rs: what saturating_lane clamps, the exact value of a lane of the saturating, halving and narrowing
// operations, at a width where it cannot overflow.
#![tactic(auto)]

ghost use Rattle.std.specs.Prelude.{◌≡◌, [], ◌∷◌, ◌+◌, ◌*◌, ◌≤◌, ◌<◌, ◌^◌};
ghost use Rattle.pool.specs.Growth.{Room};
ghost use Rattle.trees.specs.Arith.{kind_bits, joined, shifted, scaled, exact_lane, exact_bits, kind_to};
ghost use Rattle.lower.specs.Builds.{Builds1, Builds2, BuildsIf};
ghost use Rattle.lower_kinds.specs.Sources.{uses_second, KindIn};

use lower_kinds::operators::shift_op;
use pool::{Built, Node};
use terms::BinOp;
use trees::{SaturateTo, SaturatingKind};
use wide::word::power;

pub mod opposite;
pub mod product;

// Two lanes, each widened by its own sign, under one operator.
pub fn join(
    pool: &mut [u64],
    count: usize,
    op: BinOp,
    a: Node,
    signed_a: bool,
    b: Node,
    signed_b: bool,
    lane_bits: u64,
    wide: u64,
) -> Built
    requires room { Room pool.old count 3 }
    requires a_lt_count { (a.0 < count) × (b.0 < count) × (1 ≤ lane_bits) × (lane_bits ≤ wide) × (wide ≤ 129) }
    ensures { Builds2 pool.old count pool.new result 3 a lane_bits b lane_bits wide
        (λ a b. joined op a signed_a b signed_b wide) (a.0 ∷ b.0 ∷ []) }
{
    let wide_a = lower::extend(pool, count, a, wide, signed_a);
    let wide_b = lower::extend(pool, wide_a.count, b, wide, signed_b);
    pool_nodes::bv(pool, wide_b.count, op, wide_a.node, wide_b.node)
}

// A value with a constant added if rounding asks it, shifted to the right.
pub fn shift_down(
    pool: &mut [u64],
    count: usize,
    signed: bool,
    rounding: bool,
    value: Node,
    half: u64,
    shift: u64,
    wide: u64,
) -> Built
    requires room { Room pool.old count 4 }
    requires value_lt_count { (value.0 < count) × (1 ≤ wide) × (wide ≤ 129) × (half < 2 ^ wide) × (shift < 2 ^ wide) }
    ensures { Builds1 pool.old count pool.new result 4 value wide wide
        (λ v. shifted signed rounding v half shift wide) (value.0 ∷ []) }
{
    let op = shift_op(signed);
    let rounded = lower::arith::plus_if(pool, count, rounding, value, half, wide);
    let by = pool_nodes::konst(pool, rounded.count, shift, 0, wide);
    pool_nodes::bv(pool, by.count, op, rounded.node, by.node)
}

// A signed lane, widened and shifted to the left.
pub fn shift_up(
    pool: &mut [u64],
    count: usize,
    value: Node,
    shift: u64,
    lane_bits: u64,
    wide: u64,
) -> Built
    requires room { Room pool.old count 3 }
    requires value_lt_count { (value.0 < count) × (shift < lane_bits) × (lane_bits ≤ wide) × (wide ≤ 129) }
    ensures { Builds1 pool.old count pool.new result 3 value lane_bits wide (λ v. scaled v shift wide) (value.0 ∷ []) }
{
    let wide_value = pool_nodes::sign_ext(pool, count, value, wide);
    let by = pool_nodes::konst(pool, wide_value.count, shift, 0, wide);
    pool_nodes::bv(pool, by.count, BinOp::Shl, wide_value.node, by.node)
}

// The range that a kind clamps its exact value into.
pub fn kind_to(kind: SaturatingKind) -> Option<SaturateTo>
    ensures { result ≡ kind_to kind }
{
    match kind {
        SaturatingKind::AddSub { to, .. } => Some(to),
        SaturatingKind::Halving { .. } => None,
        SaturatingKind::Narrow { to } => Some(to),
        SaturatingKind::ShiftNarrow { to, .. } => to,
        SaturatingKind::Unary { .. } => Some(SaturateTo::Signed),
        SaturatingKind::DoublingMultiplyHigh { .. } => Some(SaturateTo::Signed),
    }
}

// The bits of a kind's exact value.
pub fn exact_bits(kind: SaturatingKind, lane_bits: u64) -> u64
    requires { lane_bits ≤ 64 }
    ensures { result ≡ exact_bits kind lane_bits }
{
    match kind {
        SaturatingKind::AddSub { .. } => lane_bits + 1,
        SaturatingKind::Halving { .. } => lane_bits + 1,
        SaturatingKind::Narrow { .. } => lane_bits * 2,
        SaturatingKind::ShiftNarrow { .. } => lane_bits * 2 + 1,
        SaturatingKind::Unary { .. } => lane_bits + 1,
        SaturatingKind::DoublingMultiplyHigh { .. } => lane_bits * 2 + 1,
    }
}

// With one bit more the sum is exact; halved, it always fits.
fn exact_half(
    pool: &mut [u64],
    count: usize,
    rounding: bool,
    a: Node,
    b: Node,
    lane_bits: u64,
    signed: bool,
) -> Built
    requires room { Room pool.old count 7 }
    requires a_lt_count { (a.0 < count) × (b.0 < count) × (1 ≤ lane_bits) × (lane_bits ≤ 64) }
    ensures { Builds2 pool.old count pool.new result 7 a lane_bits b lane_bits (lane_bits + 1)
        (λ a b. exact_lane (SaturatingKind.Halving rounding) a b lane_bits «signed») (a.0 ∷ b.0 ∷ []) }
{
    let wide = lane_bits + 1;
    let sum = join(
        pool,
        count,
        BinOp::Add,
        a,
        signed,
        b,
        signed,
        lane_bits,
        wide,
    );
    shift_down(pool, sum.count, signed, rounding, sum.node, 1, 1, wide)
}

// One bit above the source's width: at that width half a unit, added before the shift, can carry into the sign bit.
fn exact_narrow(
    pool: &mut [u64],
    count: usize,
    shift: u64,
    rounding: bool,
    to: Option<SaturateTo>,
    a: Node,
    lane_bits: u64,
    signed: bool,
) -> Built
    requires room { Room pool.old count 5 }
    requires a_lt_count { (a.0 < count) × (1 ≤ shift) × (shift ≤ lane_bits) × (lane_bits ≤ 32) }
    ensures { Builds1 pool.old count pool.new result 5 a (lane_bits * 2) (lane_bits * 2 + 1)
        (λ a. exact_lane (SaturatingKind.ShiftNarrow shift rounding to) a a lane_bits «signed») (a.0 ∷ []) }
{
    let wide = lane_bits * 2 + 1;
    let half = power(shift - 1);
    let value = lower::extend(pool, count, a, wide, signed);
    shift_down(
        pool,
        value.count,
        signed,
        rounding,
        value.node,
        half,
        shift,
        wide,
    )
}

// One lane. With one bit more a sum or a difference is exact. `b` is read by the kinds of two sources alone.
pub fn exact_lane(
    pool: &mut [u64],
    count: usize,
    kind: SaturatingKind,
    a: Node,
    b: Node,
    lane_bits: u64,
    signed_sources: bool,
) -> Built
    requires room { Room pool.old count 9 }
    requires a_lt_count { (a.0 < count) × (b.0 < count) × (1 ≤ lane_bits) × KindIn kind lane_bits }
    ensures { BuildsIf pool.old count pool.new result 9 a (kind_bits kind lane_bits) (uses_second kind) b (kind_bits kind lane_bits)
        (exact_bits kind lane_bits) (λ a b. exact_lane kind a b lane_bits signed_sources) }
{
    match kind {
        SaturatingKind::AddSub { op, .. } => {
            join(
                pool,
                count,
                op,
                a,
                signed_sources,
                b,
                signed_sources,
                lane_bits,
                lane_bits + 1,
            )
        }
        SaturatingKind::Halving { rounding } => {
            exact_half(pool, count, rounding, a, b, lane_bits, signed_sources)
        }
        SaturatingKind::Narrow { .. } => Built { node: a, count },
        SaturatingKind::ShiftNarrow {
            shift,
            rounding,
            to,
        } => {
            exact_narrow(
                pool,
                count,
                shift,
                rounding,
                to,
                a,
                lane_bits,
                signed_sources,
            )
        }
        SaturatingKind::Unary { negate } => {
            opposite::exact_unary(pool, count, negate, a, lane_bits)
        }
        SaturatingKind::DoublingMultiplyHigh { rounding } => {
            product::exact_high(pool, count, rounding, a, b, lane_bits)
        }
    }
}
