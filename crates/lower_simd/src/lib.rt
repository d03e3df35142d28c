// The Rust's lift/simd.rs: cuts, and lanes put together. A cut of a cut is joined, as `extract_collapsing` of `trees` says.
#![tactic(auto)]

ghost use Rattle.std.specs.Prelude.{◌≡◌, ◌+◌, ◌*◌, ◌≤◌, ◌<◌, length};
ghost use Rattle.pool.specs.Growth.{Room};
ghost use Rattle.pool_nodes.specs.Builders.{MadeConcat};
ghost use Rattle.lower_simd.specs.Cut.{rises_at, CutFrom, MadeCut, MadeLane};

use neon::Lane;
use pool::words::{Kind, kind_of};
use pool::{Bit, Built, Node};
use pool_fields::{cut_lo, first};

// The node that a cut is taken from, and by how much its bits rise.
#[derive(Clone, Copy)]
pub struct Cut {
    pub node: Node,
    pub by: Bit,
}

// Whether a cut of `value` up to the bit hi rises: `value` is an Extract itself. In a valid pool the operand is below it and the bits stay
// below 129; of a damaged one the tests see to that.
fn rises(pool: &[u64], value: Node, hi: Bit) -> bool
    requires { (4 * value.0 + 3 < length pool.now) × (hi.0 ≤ 128) }
    ensures { result ≡ rises_at pool.now value.0 hi.0 }
{
    (kind_of(pool, value) == Kind::EXTRACT)
        & (first(pool, value).0 < value.0)
        & (cut_lo(pool, value).0 <= 128 - hi.0)
}

// From where a cut of `value` up to the bit hi is taken: past every Extract. The walk goes from operand to operand, so there is no range to go
// over.
pub fn cut_from(pool: &[u64], value: Node, hi: Bit) -> Cut
    requires { (4 * value.0 + 3 < length pool.now) × (hi.0 ≤ 128) }
    ensures { CutFrom pool.now value.0 hi.0 result.node.0 result.by.0 }
{
    let mut at = value.0;
    let mut by = 0;
    while rises(pool, Node(at), Bit(hi.0 + by)) {
        by += cut_lo(pool, Node(at)).0;
        at = first(pool, Node(at)).0;
    }
    Cut {
        node: Node(at),
        by: Bit(by),
    }
}

// The bits hi to lo of `value`: of a lane, inside a lane or of a low half.
pub fn extract_collapsing(pool: &mut [u64], count: usize, value: Node, hi: Bit, lo: Bit) -> Built
    requires room { Room pool.old count 1 }
    requires value_lt_count { (value.0 < count) × (lo.0 ≤ hi.0) × (hi.0 < 129) }
    ensures { MadeCut pool.old count pool.new result value hi.0 lo.0 }
{
    let from = cut_from(pool, value, hi);
    pool_nodes::extract(
        pool,
        count,
        from.node,
        Bit(hi.0 + from.by.0),
        Bit(lo.0 + from.by.0),
    )
}

// Lane `index` of `value`.
pub fn extract_lane(
    pool: &mut [u64],
    count: usize,
    value: Node,
    lane_bits: u64,
    index: Lane,
) -> Built
    requires room { Room pool.old count 1 }
    requires value_lt_count { (value.0 < count) × (1 ≤ lane_bits) × (lane_bits * index.0 + lane_bits ≤ 128) }
    ensures { MadeLane pool.old count pool.new result value lane_bits index.0 }
{
    let lo = lane_bits * index.0;
    extract_collapsing(pool, count, value, Bit(lo + lane_bits - 1), Bit(lo))
}

// One turn of the Rust's loop over a Vec of lanes: `lane` is put above the lanes so far.
pub fn concat_lanes(pool: &mut [u64], count: usize, lane: Node, acc: Node) -> Built
    requires room { Room pool.old count 1 }
    requires lane_lt_count { (lane.0 < count) × (acc.0 < count) }
    ensures { MadeConcat pool.old count pool.new result lane acc }
{
    pool_nodes::concat(pool, count, lane, acc)
}
