// Whether a clamp alters its value: one bit.
ghost use Rattle.std.specs.Prelude.{[], ◌∷◌, ◌≤◌, ◌<◌, ◌^◌};
ghost use Rattle.terms.specs.Expr.{Const, Ite, Compare};
ghost use Rattle.terms.specs.declared.CmpOp.TheVariants.{Slt};
ghost use Rattle.pool.specs.Node.{wide as wide_words};
ghost use Rattle.pool.specs.Growth.{Room};
ghost use Rattle.lower.specs.Builds.{Builds1, Builds2};
ghost use Rattle.saturation.specs.Bits.{yes, no, clipped_between, clipped};

use lower::Words;
use pool::{Built, Node};
use terms::CmpOp;
use trees::SaturateTo;
use wide::word::{power, unsigned_max};

// 1 if the test holds, else `other`.
fn one_where(pool: &mut [u64], count: usize, test: Node, other: Node) -> Built
    requires room { Room pool.old count 2 }
    requires test_lt_count { (test.0 < count) × (other.0 < count) }
    ensures { Builds2 pool.old count pool.new result 2 test 0 other 1 1 (λ t o. Ite t yes o) (test.0 ∷ other.0 ∷ []) }
{
    let one = pool_nodes::konst(pool, count, 1, 0, 1);
    pool_nodes::ite(pool, one.count, test, one.node, other)
}

// 1 if `value` is more than `high`.
fn clip_above(
    pool: &mut [u64],
    count: usize,
    op: CmpOp,
    value: Node,
    high: Words,
    wide: u64,
) -> Built
    requires room { Room pool.old count 5 }
    requires value_lt_count { (value.0 < count) × (1 ≤ wide) × (wide ≤ 128) × (wide_words high.lo high.hi < 2 ^ wide) }
    ensures { Builds1 pool.old count pool.new result 5 value wide 1
        (λ v. Ite (Compare op (Const (wide_words high.lo high.hi) wide) v) yes no) (value.0 ∷ []) }
{
    let most = pool_nodes::konst(pool, count, high.lo, high.hi, wide);
    let above = pool_nodes::compare(pool, most.count, op, most.node, value);
    let zero = pool_nodes::konst(pool, above.count, 0, 0, 1);
    one_where(pool, zero.count, above.node, zero.node)
}

// 1 if `value` is less than `low`, else `other`.
fn clip_below(
    pool: &mut [u64],
    count: usize,
    value: Node,
    low: Words,
    other: Node,
    wide: u64,
) -> Built
    requires room { Room pool.old count 4 }
    requires value_lt_count { (value.0 < count) × (other.0 < count) × (1 ≤ wide) × (wide ≤ 128) × (wide_words low.lo low.hi < 2 ^ wide) }
    ensures { Builds2 pool.old count pool.new result 4 value wide other 1 1
        (λ v o. Ite (Compare Slt v (Const (wide_words low.lo low.hi) wide)) yes o) (value.0 ∷ other.0 ∷ []) }
{
    let least = pool_nodes::konst(pool, count, low.lo, low.hi, wide);
    let below = pool_nodes::compare(pool, least.count, CmpOp::Slt, value, least.node);
    one_where(pool, below.count, below.node, other)
}

// 1 if `value` is outside the range from `low` to `high`.
fn clip_between(
    pool: &mut [u64],
    count: usize,
    value: Node,
    low: Words,
    high: Words,
    wide: u64,
) -> Built
    requires room { Room pool.old count 9 }
    requires value_lt_count { (value.0 < count) × (1 ≤ wide) × (wide ≤ 128) }
    requires hi_bound { (wide_words low.lo low.hi < 2 ^ wide) × (wide_words high.lo high.hi < 2 ^ wide) }
    ensures { Builds1 pool.old count pool.new result 9 value wide 1
        (λ v. clipped_between v (Const (wide_words low.lo low.hi) wide) (Const (wide_words high.lo high.hi) wide)) (value.0 ∷ []) }
{
    let above = clip_above(pool, count, CmpOp::Slt, value, high, wide);
    clip_below(pool, above.count, value, low, above.node, wide)
}

// Whether `value`, of wide bits, is outside the range of narrow bits that `to` names.
pub fn clip(
    pool: &mut [u64],
    count: usize,
    value: Node,
    wide: u64,
    narrow: u64,
    to: SaturateTo,
) -> Built
    requires room { Room pool.old count 9 }
    requires value_lt_count { (value.0 < count) × (1 ≤ narrow) × (narrow ≤ 64) × (narrow ≤ wide) × (wide ≤ 128) }
    ensures { Builds1 pool.old count pool.new result 9 value wide 1 (λ v. clipped v wide narrow to) (value.0 ∷ []) }
{
    match to {
        SaturateTo::Signed => {
            let low = lower::minus_power(wide, narrow - 1);
            let high = Words {
                lo: power(narrow - 1) - 1,
                hi: 0,
            };
            clip_between(pool, count, value, low, high, wide)
        }
        SaturateTo::Unsigned => {
            let high = Words {
                lo: unsigned_max(narrow),
                hi: 0,
            };
            clip_above(pool, count, CmpOp::Ult, value, high, wide)
        }
        SaturateTo::SignedToUnsigned => {
            let high = Words {
                lo: unsigned_max(narrow),
                hi: 0,
            };
            clip_between(pool, count, value, Words { lo: 0, hi: 0 }, high, wide)
        }
    }
}
