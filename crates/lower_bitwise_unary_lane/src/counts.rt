// The Rust's neon/lower/arith.rs: leading_zeros, and the counts and the reversal that bitwise_unary_lane builds in its arms.
ghost use Rattle.std.specs.Prelude.{[], ◌∷◌, ◌+◌, ◌*◌, ◌≤◌, ◌<◌};
ghost use Rattle.pool.specs.Growth.{Room};
ghost use Rattle.trees.specs.declared.BitwiseUnary.TheVariants.{LeadingSignBits, ReverseBits};
ghost use Rattle.trees.specs.Trees.{leading_zeros, population_count, bitwise_unary_lane, zeros_at, count_bit_at};
ghost use Rattle.lower_bitwise_unary_lane.specs.Layers.{BuildsLane, BuildsLane2};

use pool::{Bit, Built, Node};
use terms::{BinOp, CmpOp};

// The test of one bit of the lane that begins at `base`; `rest` has the tests of the bits below it.
fn zeros_at(
    pool: &mut [u64],
    count: usize,
    value: Node,
    rest: Node,
    base: Bit,
    bits: u64,
    bit: Bit,
) -> Built
    requires room { Room pool.old count 5 }
    requires value_lt_count { (value.0 < count) × (rest.0 < count) × (bit.0 < bits) × (bits ≤ 64) × (base.0 + bits ≤ 129) }
    ensures { BuildsLane2 pool.old count pool.new result 5 value base.0 bits rest bits bits (λ v t. zeros_at bits v bit.0 t)
        (value.0 ∷ rest.0 ∷ []) }
{
    let at = bit.0 + base.0;
    let tested = pool_nodes::extract(pool, count, value, Bit(at), Bit(at));
    let one = pool_nodes::konst(pool, tested.count, 1, 0, 1);
    let set = pool_nodes::compare(pool, one.count, CmpOp::Eq, tested.node, one.node);
    let zeros = pool_nodes::konst(pool, set.count, bits - 1 - bit.0, 0, bits);
    pool_nodes::ite(pool, zeros.count, set.node, zeros.node, rest)
}

// How many leading bits are zero. The tests begin with the lowest bit, so that that of the highest is outermost.
pub fn leading_zeros(pool: &mut [u64], count: usize, value: Node, base: Bit, bits: u64) -> Built
    requires room { Room pool.old count (5 * bits + 1) }
    requires value_lt_count { (value.0 < count) × (1 ≤ bits) × (bits ≤ 64) × (base.0 + bits ≤ 129) }
    ensures { BuildsLane pool.old count pool.new result (5 * bits + 1) value base.0 bits bits (λ v. leading_zeros v bits bits)
        (value.0 ∷ []) }
{
    let mut acc = pool_nodes::konst(pool, count, bits, 0, bits);
    for i in 0..bits {
        acc = zeros_at(pool, acc.count, value, acc.node, base, bits, Bit(i));
    }
    acc
}

// The sum with one bit more.
fn count_at(
    pool: &mut [u64],
    count: usize,
    value: Node,
    rest: Node,
    base: Bit,
    lane_bits: u64,
    bit: Bit,
) -> Built
    requires room { Room pool.old count 3 }
    requires value_lt_count { (value.0 < count) × (rest.0 < count) × (bit.0 < lane_bits) × (lane_bits ≤ 64) × (base.0 + lane_bits ≤ 129) }
    ensures { BuildsLane2 pool.old count pool.new result 3 value base.0 lane_bits rest lane_bits lane_bits
        (λ v t. count_bit_at lane_bits v bit.0 t) (value.0 ∷ rest.0 ∷ []) }
{
    let at = bit.0 + base.0;
    let one = pool_nodes::extract(pool, count, value, Bit(at), Bit(at));
    let wide = pool_nodes::zero_ext(pool, one.count, one.node, lane_bits);
    pool_nodes::bv(pool, wide.count, BinOp::Add, rest, wide.node)
}

// How many bits are set.
pub fn population_count(
    pool: &mut [u64],
    count: usize,
    value: Node,
    base: Bit,
    lane_bits: u64,
) -> Built
    requires room { Room pool.old count (3 * lane_bits + 1) }
    requires value_lt_count { (value.0 < count) × (1 ≤ lane_bits) × (lane_bits ≤ 64) × (base.0 + lane_bits ≤ 129) }
    ensures { BuildsLane pool.old count pool.new result (3 * lane_bits + 1) value base.0 lane_bits lane_bits
        (λ v. population_count v lane_bits lane_bits) (value.0 ∷ []) }
{
    let mut acc = pool_nodes::konst(pool, count, 0, 0, lane_bits);
    for i in 0..lane_bits {
        acc = count_at(pool, acc.count, value, acc.node, base, lane_bits, Bit(i));
    }
    acc
}

// How many bits after the sign repeat it: the leading zeros of each bit's difference from its neighbour, which is one bit
// narrower.
pub fn leading_sign_bits(
    pool: &mut [u64],
    count: usize,
    value: Node,
    base: Bit,
    lane_bits: u64,
) -> Built
    requires room { Room pool.old count (5 * lane_bits + 1) }
    requires value_lt_count { (value.0 < count) × (2 ≤ lane_bits) × (lane_bits ≤ 64) × (base.0 + lane_bits ≤ 129) }
    ensures { BuildsLane pool.old count pool.new result (5 * lane_bits + 1) value base.0 lane_bits lane_bits
        (λ v. bitwise_unary_lane LeadingSignBits v lane_bits) (value.0 ∷ []) }
{
    let width = lane_bits - 1;
    let high = pool_nodes::extract(pool, count, value, Bit(width + base.0), Bit(1 + base.0));
    let low = pool_nodes::extract(pool, high.count, value, Bit(width - 1 + base.0), base);
    let folded = pool_nodes::bv(pool, low.count, BinOp::Xor, high.node, low.node);
    let zeros = leading_zeros(pool, folded.count, folded.node, Bit(0), width);
    pool_nodes::zero_ext(pool, zeros.count, zeros.node, lane_bits)
}

// The bits from the top down, the first of them lowest. The loop is not that of lower::family, where a source has one width: what is promised
// here holds at each width of `value`.
pub fn reverse_bits(pool: &mut [u64], count: usize, value: Node, base: Bit, lane_bits: u64) -> Built
    requires room { Room pool.old count (2 * lane_bits) }
    requires value_lt_count { (value.0 < count) × (1 ≤ lane_bits) × (lane_bits ≤ 64) × (base.0 + lane_bits ≤ 129) }
    ensures { BuildsLane pool.old count pool.new result (2 * lane_bits) value base.0 lane_bits lane_bits
        (λ v. bitwise_unary_lane ReverseBits v lane_bits) (value.0 ∷ []) }
{
    let top = lane_bits - 1;
    let highest = top + base.0;
    let mut acc = pool_nodes::extract(pool, count, value, Bit(highest), Bit(highest));
    for i in 1..lane_bits {
        let at = top - i + base.0;
        let bit = pool_nodes::extract(pool, acc.count, value, Bit(at), Bit(at));
        acc = lower_simd::concat_lanes(pool, bit.count, bit.node, acc.node);
    }
    acc
}
