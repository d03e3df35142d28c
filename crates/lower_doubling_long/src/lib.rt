// The Rust's neon/lower/arith.rs: doubling_long_lanes.
#![tactic(auto)]

ghost use Rattle.std.specs.Prelude.{◌≡◌, [], ◌∷◌, ◌+◌, ◌-◌, ◌*◌, ◌/◌, ◌≤◌, ◌<◌};
ghost use Rattle.pool.specs.Growth.{Room};
ghost use Rattle.trees.specs.Arith.{source_lane};
ghost use Rattle.trees.specs.Trees.{doubling_product, doubling_long_lanes};
ghost use Rattle.lower.specs.Builds.{Builds2, Lowers, read, read_if, unread, Below};
ghost use Rattle.lower_doubling_long.specs.Elements.{accumulates, element_node, element_source, element_nodes, factor_bits, second_factor_bits, MadeElement};
ghost use Rattle.lower_doubling_long.specs.Lanes.{combined_at, doubled_at};

use lower::family::{Lanes, concat_each};
use lower_exact::join;
use lower_exact::product::double;
use neon::Lane;
use pool::{Built, Node};
use terms::BinOp;
use trees::SaturateTo;

// A second source: one element for every lane, or a vector whose lanes are read one by one.
#[derive(Clone, Copy)]
pub enum Element {
    One(Node),
    PerLane(Node),
}

// The product of two narrow elements, doubled and clamped, at one bit above the destination's n: twice the square of the least element is
// 2^(n - 1), one past the range and the only product that is. At n bits it would be the least number, which no clamp changes.
fn doubling_product(pool: &mut [u64], count: usize, a: Node, b: Node, lane_bits: u64) -> Built
    requires room { Room pool.old count 12 }
    requires a_lt_count { (a.0 < count) × (b.0 < count) × (2 ≤ lane_bits) × (lane_bits ≤ 64) }
    ensures { Builds2 pool.old count pool.new result 12 a (lane_bits / 2) b (lane_bits / 2) lane_bits
        (λ a b. doubling_product a b lane_bits) (a.0 ∷ b.0 ∷ []) }
{
    let wide = lane_bits + 1;
    let doubled = double(pool, count, a, b, lane_bits / 2, wide);
    lower::arith::clamp(
        pool,
        doubled.count,
        doubled.node,
        wide,
        lane_bits,
        SaturateTo::Signed,
    )
}

// The product, clamped already, joined to the old destination's lane under a second clamp: Arm saturates twice.
fn combine_at(
    pool: &mut [u64],
    count: usize,
    combine: Option<BinOp>,
    product: Node,
    d: Node,
    lane_bits: u64,
    lanes: u64,
    index: Lane,
) -> Built
    requires room { Room pool.old count 11 }
    requires product_lt_count { (product.0 < count) × Below (read_if (accumulates combine) d 0) count }
    requires le_lane_bits { (2 ≤ lane_bits) × (lane_bits ≤ 64) × (index.0 < lanes) × (lane_bits * lanes ≤ 128) }
    ensures { Lowers pool.old count pool.new result 11 lane_bits (read_if (accumulates combine) d (lane_bits * lanes))
        (read product lane_bits) unread (λ d p b. combined_at combine lane_bits d p index.0) (product.0 ∷ []) }
{
    match combine {
        None => Built {
            node: product,
            count,
        },
        Some(op) => {
            let wide = lane_bits + 1;
            let prior = lower_simd::extract_lane(pool, count, d, lane_bits, index);
            let sum = join(
                pool,
                prior.count,
                op,
                prior.node,
                true,
                product,
                true,
                lane_bits,
                wide,
            );
            lower::arith::clamp(
                pool,
                sum.count,
                sum.node,
                wide,
                lane_bits,
                SaturateTo::Signed,
            )
        }
    }
}

// The lane of the sources that a destination lane is made from.
pub fn source_lane(upper: bool, lanes: u64, index: Lane) -> Lane
    requires { (index.0 < lanes) × (lanes ≤ 128) }
    ensures { result.0 ≡ source_lane upper lanes index.0 }
{
    if upper {
        return Lane(index.0 + lanes);
    }
    index
}

// The second factor of a lane.
fn second_lane(pool: &mut [u64], count: usize, second: Element, bits: u64, index: Lane) -> Built
    requires room { Room pool.old count 1 }
    requires second_bound { (element_node second < count) × (1 ≤ bits) × (bits * index.0 + bits ≤ 128) }
    ensures { MadeElement pool.old count pool.new result second bits index.0 }
{
    match second {
        Element::One(value) => Built { node: value, count },
        Element::PerLane(vector) => lower_simd::extract_lane(pool, count, vector, bits, index),
    }
}

// The products of the lanes of `first` and a second source that is made, doubled.
#[derive(Clone, Copy)]
struct Doublings {
    combine: Option<BinOp>,
    upper: bool,
    first: Node,
    second: Element,
    d: Node,
    lane_bits: u64,
    lanes: u64,
    ghost fits: { (2 ≤ lane_bits) × (lane_bits ≤ 64) × (lane_bits * lanes ≤ 128) },
}

impl Lanes for Doublings {
    ghost plan = { λ s. record {
      lanes = s.lanes;
      bits = s.lane_bits;
      nodes = 25;
      d = read_if (accumulates s.combine) s.d (s.lane_bits * s.lanes);
      first = read s.first (factor_bits s.upper s.lane_bits s.lanes);
      second = element_source s.second (s.lane_bits / 2) (factor_bits s.upper s.lane_bits s.lanes);
      tree = λ d a b. doubled_at s.combine s.second s.upper s.lane_bits s.lanes d a b;
      ins = element_nodes s.second;
    } };

    fn lanes(&self) -> u64 {
        self.lanes
    }

    fn make(&self, pool: &mut [u64], count: usize, index: Lane) -> Built {
        let narrow = self.lane_bits / 2;
        let from = source_lane(self.upper, self.lanes, index);
        let a = lower_simd::extract_lane(pool, count, self.first, narrow, from);
        let b = second_lane(pool, a.count, self.second, narrow, from);
        let product = doubling_product(pool, b.count, a.node, b.node, self.lane_bits);
        combine_at(
            pool,
            product.count,
            self.combine,
            product.node,
            self.d,
            self.lane_bits,
            self.lanes,
            index,
        )
    }
}

// SQDMULL, SQDMLAL and SQDMLSL: an element is read once, for every lane.
pub fn doubling_long_lanes(
    pool: &mut [u64],
    count: usize,
    combine: Option<BinOp>,
    upper: bool,
    by_element: bool,
    element: Lane,
    first: Node,
    second: Node,
    d: Node,
    lane_bits: u64,
    lanes: u64,
) -> Built
    requires room { Room pool.old count (26 * lanes + 1) }
    requires first_lt_count { (first.0 < count) × (second.0 < count) × Below (read_if (accumulates combine) d 0) count }
    requires le_lane_bits { (2 ≤ lane_bits) × (lane_bits ≤ 64) × (1 ≤ lanes) × (lane_bits * lanes ≤ 128) × (lane_bits / 2 * element.0 + lane_bits / 2 ≤ 128) }
    ensures { Lowers pool.old count pool.new result (26 * lanes + 1) (lane_bits * lanes)
        (read_if (accumulates combine) d (lane_bits * lanes)) (read first (factor_bits upper lane_bits lanes))
        (read second (second_factor_bits by_element upper lane_bits lanes))
        (λ d a b. doubling_long_lanes combine upper by_element element.0 a b d lane_bits lanes) [] }
{
    let mut doublings = Doublings {
        combine,
        upper,
        first,
        second: Element::PerLane(second),
        d,
        lane_bits,
        lanes,
    };
    if by_element {
        let one = lower_simd::extract_lane(pool, count, second, lane_bits / 2, element);
        doublings.second = Element::One(one.node);
        return concat_each(pool, one.count, &doublings);
    }
    concat_each(pool, count, &doublings)
}
