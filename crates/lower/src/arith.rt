// The Rust's neon/lower/arith.rs: what its families share.
ghost use Rattle.std.specs.Prelude.{[], ◌∷◌, ◌*◌, ◌-◌, ◌≤◌, ◌<◌, ◌^◌};
ghost use Rattle.terms.specs.Expr.{Const};
ghost use Rattle.pool.specs.Node.{wide as wide_words};
ghost use Rattle.pool.specs.Growth.{Room};
ghost use Rattle.trees.specs.Arith.{clamp_between, clamp_below, plus_if};
ghost use Rattle.trees.specs.Simd.{extract_collapsing};
ghost use Rattle.trees.specs.Trees.{clamp as clampTree, keep_lower};
ghost use Rattle.lower.specs.Builds.{Builds1, BuildsCut, Below, read_if, with_lower};

use crate::Words;
use pool::{Bit, Built, Node};
use terms::{BinOp, CmpOp};
use trees::SaturateTo;
use wide::word::{power, unsigned_max};

// `low` if `value` is signed less than it, else `high` if `value` is signed more than it, else `value`; of these the low
// bits.
fn clamp_between(
    pool: &mut [u64],
    count: usize,
    value: Node,
    low: Words,
    high: Words,
    wide: u64,
    narrow: u64,
) -> Built
    requires room { Room pool.old count 7 }
    requires value_lt_count { (value.0 < count) × (1 ≤ narrow) × (narrow ≤ wide) × (wide ≤ 128) }
    requires hi_bound { (wide_words low.lo low.hi < 2 ^ wide) × (wide_words high.lo high.hi < 2 ^ wide) }
    ensures { Builds1 pool.old count pool.new result 7 value wide narrow
        (λ v. extract_collapsing (clamp_between v (Const (wide_words low.lo low.hi) wide) (Const (wide_words high.lo high.hi) wide)) (narrow - 1) 0)
        (value.0 ∷ []) }
{
    let most = pool_nodes::konst(pool, count, high.lo, high.hi, wide);
    let above = pool_nodes::compare(pool, most.count, CmpOp::Slt, most.node, value);
    let at_most = pool_nodes::ite(pool, above.count, above.node, most.node, value);
    let least = pool_nodes::konst(pool, at_most.count, low.lo, low.hi, wide);
    let below = pool_nodes::compare(pool, least.count, CmpOp::Slt, value, least.node);
    let clamped = pool_nodes::ite(pool, below.count, below.node, least.node, at_most.node);
    pool_nodes::extract(pool, clamped.count, clamped.node, Bit(narrow - 1), Bit(0))
}

// `high` if `value` is more than it, else `value`; of these the low bits.
fn clamp_below(
    pool: &mut [u64],
    count: usize,
    value: Node,
    high: u64,
    wide: u64,
    narrow: u64,
) -> Built
    requires room { Room pool.old count 4 }
    requires value_lt_count { (value.0 < count) × (1 ≤ narrow) × (narrow ≤ wide) × (wide ≤ 128) × (high < 2 ^ wide) }
    ensures { Builds1 pool.old count pool.new result 4 value wide narrow
        (λ v. extract_collapsing (clamp_below v (Const high wide)) (narrow - 1) 0) (value.0 ∷ []) }
{
    let most = pool_nodes::konst(pool, count, high, 0, wide);
    let above = pool_nodes::compare(pool, most.count, CmpOp::Ult, most.node, value);
    let at_most = pool_nodes::ite(pool, above.count, above.node, most.node, value);
    pool_nodes::extract(pool, at_most.count, at_most.node, Bit(narrow - 1), Bit(0))
}

// Brings `value`, computed at wide bits, into the range of narrow bits that `to` names. The comparison goes by the sign of the value, not by
// that of the range: a sum that is never negative is compared unsigned, but UQSUB's difference, which can be negative, signed, though its
// range is an unsigned one.
pub fn clamp(
    pool: &mut [u64],
    count: usize,
    value: Node,
    wide: u64,
    narrow: u64,
    to: SaturateTo,
) -> Built
    requires room { Room pool.old count 7 }
    requires value_lt_count { (value.0 < count) × (1 ≤ narrow) × (narrow ≤ 64) × (narrow ≤ wide) × (wide ≤ 128) }
    ensures { Builds1 pool.old count pool.new result 7 value wide narrow (λ v. clampTree v wide narrow to) (value.0 ∷ []) }
{
    match to {
        SaturateTo::Signed => {
            let low = crate::minus_power(wide, narrow - 1);
            let high = Words {
                lo: power(narrow - 1) - 1,
                hi: 0,
            };
            clamp_between(pool, count, value, low, high, wide, narrow)
        }
        SaturateTo::Unsigned => {
            clamp_below(pool, count, value, unsigned_max(narrow), wide, narrow)
        }
        SaturateTo::SignedToUnsigned => {
            let high = Words {
                lo: unsigned_max(narrow),
                hi: 0,
            };
            clamp_between(
                pool,
                count,
                value,
                Words { lo: 0, hi: 0 },
                high,
                wide,
                narrow,
            )
        }
    }
}

// `value` with a constant added, if rounding asks it.
pub fn plus_if(
    pool: &mut [u64],
    count: usize,
    rounding: bool,
    value: Node,
    constant: u64,
    wide: u64,
) -> Built
    requires room { Room pool.old count 2 }
    requires value_lt_count { (value.0 < count) × (1 ≤ wide) × (wide ≤ 129) × (constant < 2 ^ wide) }
    ensures { Builds1 pool.old count pool.new result 2 value wide wide (λ v. plus_if rounding v (Const constant wide)) (value.0 ∷ []) }
{
    if rounding {
        let half = pool_nodes::konst(pool, count, constant, 0, wide);
        return pool_nodes::bv(pool, half.count, BinOp::Add, value, half.node);
    }
    Built { node: value, count }
}

// The 2 forms of a narrowing keep the lower half of the old destination below the new lanes.
pub fn keep_lower(
    pool: &mut [u64],
    count: usize,
    upper: bool,
    new: Node,
    d: Node,
    lane_bits: u64,
    lanes: u64,
) -> Built
    requires room { Room pool.old count 2 }
    requires lt_count { (new.0 < count) × Below (read_if upper d 0) count × (1 ≤ lane_bits * lanes) × (lane_bits * lanes ≤ 64) }
    ensures { BuildsCut pool.old count pool.new result 2 new (lane_bits * lanes) upper d (lane_bits * lanes * 2)
        (with_lower upper (lane_bits * lanes)) (λ v x. keep_lower upper v x lane_bits lanes) }
{
    if upper {
        let lower = lower_simd::extract_collapsing(
            pool,
            count,
            d,
            Bit(lane_bits * lanes - 1),
            Bit(0),
        );
        return pool_nodes::concat(pool, lower.count, new, lower.node);
    }
    Built { node: new, count }
}
