// SQDMULL, SQDMLAL and SQDMLSL: either clamp counts.
ghost use Rattle.std.specs.Prelude.{true, [], ◌∷◌, ◌+◌, ◌*◌, ◌/◌, ◌≤◌, ◌<◌};
ghost use Rattle.pool.specs.Growth.{Room};
ghost use Rattle.trees.specs.Arith.{joined};
ghost use Rattle.trees.specs.Trees.{extract_lane};
ghost use Rattle.lower.specs.Builds.{Builds2, Lowers, read, read_if, Below};
ghost use Rattle.lower_doubling_long.specs.Elements.{accumulates};
ghost use Rattle.saturation.specs.Bits.{clipped, product_bit, doubling_long_bit};

use neon::Lane;
use pool::{Built, Node};
use saturation_lane::clip::clip;
use terms::BinOp;
use trees::SaturateTo;

// The doubled product.
fn product_bit(pool: &mut [u64], count: usize, a: Node, b: Node, lane_bits: u64) -> Built
    requires room { Room pool.old count 14 }
    requires a_lt_count { (a.0 < count) × (b.0 < count) × (2 ≤ lane_bits) × (lane_bits ≤ 64) }
    ensures { Builds2 pool.old count pool.new result 14 a (lane_bits / 2) b (lane_bits / 2) 1
        (λ a b. product_bit a b lane_bits) (a.0 ∷ b.0 ∷ []) }
{
    let wide = lane_bits + 1;
    let to = SaturateTo::Signed;
    let value = lower_exact::product::double(pool, count, a, b, lane_bits / 2, wide);
    clip(pool, value.count, value.node, wide, lane_bits, to)
}

// The sum of the old lane and the clamped product.
fn sum_bit(
    pool: &mut [u64],
    count: usize,
    op: BinOp,
    d: Node,
    product: Node,
    lane_bits: u64,
) -> Built
    requires room { Room pool.old count 12 }
    requires d_lt_count { (d.0 < count) × (product.0 < count) × (2 ≤ lane_bits) × (lane_bits ≤ 64) }
    ensures { Builds2 pool.old count pool.new result 12 d lane_bits product lane_bits 1
        (λ d p. clipped (joined op d true p true (lane_bits + 1)) (lane_bits + 1) lane_bits SaturateTo.Signed) (d.0 ∷ product.0 ∷ []) }
{
    let wide = lane_bits + 1;
    let to = SaturateTo::Signed;
    let sum = lower_exact::join(pool, count, op, d, true, product, true, lane_bits, wide);
    clip(pool, sum.count, sum.node, wide, lane_bits, to)
}

// The product and the sum; the product's exact value is made once.
fn either_bit(
    pool: &mut [u64],
    count: usize,
    op: BinOp,
    d: Node,
    a: Node,
    b: Node,
    lane_bits: u64,
) -> Built
    requires room { Room pool.old count 34 }
    requires d_lt_count { (d.0 < count) × (a.0 < count) × (b.0 < count) × (2 ≤ lane_bits) × (lane_bits ≤ 64) }
    ensures { Lowers pool.old count pool.new result 34 1 (read d lane_bits) (read a (lane_bits / 2)) (read b (lane_bits / 2))
        (λ d a b. doubling_long_bit (Some op) d a b lane_bits) (a.0 ∷ b.0 ∷ d.0 ∷ []) }
{
    let wide = lane_bits + 1;
    let to = SaturateTo::Signed;
    let value = lower_exact::product::double(pool, count, a, b, lane_bits / 2, wide);
    let first = clip(pool, value.count, value.node, wide, lane_bits, to);
    let product = lower::arith::clamp(pool, first.count, value.node, wide, lane_bits, to);
    let second = sum_bit(pool, product.count, op, d, product.node, lane_bits);
    pool_nodes::bv(pool, second.count, BinOp::Or, first.node, second.node)
}

// Lane `index`, from the lanes `from` and `with` of the sources.
pub fn doubling_at(
    pool: &mut [u64],
    count: usize,
    combine: Option<BinOp>,
    first: Node,
    second: Node,
    d: Node,
    lane_bits: u64,
    from: Lane,
    with: Lane,
    index: Lane,
) -> Built
    requires room { Room pool.old count 37 }
    requires first_lt_count { (first.0 < count) × (second.0 < count) × Below (read_if (accumulates combine) d 0) count }
    requires le_lane_bits { (2 ≤ lane_bits) × (lane_bits ≤ 64) × (lane_bits / 2 * from.0 + lane_bits / 2 ≤ 128)
        × (lane_bits / 2 * with.0 + lane_bits / 2 ≤ 128) × (lane_bits * index.0 + lane_bits ≤ 128) }
    ensures { Lowers pool.old count pool.new result 37 1 (read_if (accumulates combine) d 128) (read first 128) (read second 128)
        (λ d a b. doubling_long_bit combine (extract_lane d lane_bits index.0) (extract_lane a (lane_bits / 2) from.0)
        (extract_lane b (lane_bits / 2) with.0) lane_bits) [] }
{
    let narrow = lane_bits / 2;
    let a = lower_simd::extract_lane(pool, count, first, narrow, from);
    let b = lower_simd::extract_lane(pool, a.count, second, narrow, with);
    match combine {
        None => product_bit(pool, b.count, a.node, b.node, lane_bits),
        Some(op) => {
            let prior = lower_simd::extract_lane(pool, b.count, d, lane_bits, index);
            either_bit(pool, prior.count, op, prior.node, a.node, b.node, lane_bits)
        }
    }
}
