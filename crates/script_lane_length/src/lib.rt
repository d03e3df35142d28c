// The length of a pool's script by lanes, with no byte written: each line's length is a sum.
#![tactic(auto)]

ghost use Rattle.std.specs.Prelude.{◌≡◌, ◌*◌, ◌≤◌, ◌<◌, length};
ghost use Rattle.facts.specs.Answer.{number_of, value_or};
ghost use Rattle.text_series.specs.Series.{up_to};
ghost use Rattle.script_length.specs.Answer.{Named, AllNamed};
ghost use Rattle.script_lane_meaning.specs.LaneScript.{lane_script_of};
ghost use Rattle.script_lane_text.specs.Lines.{lines_at};
ghost use Rattle.script_lane_length.specs.Answer.{lane_number, LaneMeasured};

use facts::Refusal;
use pool::words::{Kind, kind_of, width_of};
use pool::{Bit, Node};
use script_length::{cut_length, script_number, sort_length, term_length};
use text_decimals::number_length;

// Both lines of a node; nothing for a Var.
fn node_length(p: &[u64], n: Node) -> usize
    requires { Named p.now n.0 }
    ensures { (result ≡ length (lines_at p.now n.0)) × (result ≤ 192) }
{
    let k = kind_of(p, n);
    if k == Kind::VAR {
        return 0;
    }
    let w = width_of(p, n);
    let name = number_length(n.0 as u64);
    name + name + sort_length(w) + term_length(p, n, k) + 35
}

// The lines of the nodes below count.
fn nodes_length(p: &[u64], count: usize) -> usize
    requires { AllNamed p.now count × (count ≤ 65535) }
    ensures { (result ≡ length (up_to count (lines_at p.now))) × (result ≤ 192 * count) }
{
    let mut sum = 0;
    for n in 0..count {
        sum += node_length(p, Node(n));
    }
    sum
}

// The whole script: the first line and 32 declarations have 1,128 bytes.
pub fn lane_measure(p: &[u64], count: usize, x: Node, y: Node, hi: Bit, lo: Bit) -> usize
    requires { AllNamed p.now count × (count ≤ 65535) × (x.0 < count) × (y.0 < count) × (hi.0 < 1000) × (lo.0 < 1000) }
    ensures { result ≡ length (lane_script_of p.now count x.0 y.0 hi.0 lo.0) }
{
    let claim = cut_length(p, x, hi, lo) + cut_length(p, y, hi, lo) + 34;
    nodes_length(p, count) + claim + 1128
}

// The refusal that has nothing to do with a buffer: of a bad pool, of a node that may not be chosen, and then of what is no cut of 128 bits.
pub fn lane_number(
    pool: &[u64],
    count: usize,
    a: Node,
    b: Node,
    hi: Bit,
    lo: Bit,
) -> Result<(), Refusal>
    ensures { number_of result ≡ lane_number pool.now count a.0 b.0 hi.0 lo.0 0 }
{
    script_number(pool, count, a, b)?;
    if hi.0 < lo.0 {
        return Err(Refusal::Node);
    }
    if 127 < hi.0 {
        return Err(Refusal::Node);
    }
    Ok(())
}

// The length of the script that asks whether nodes a and b differ in the bits from hi down to lo. Refuses as `lane_number` does.
pub fn lane_script_length(
    pool: &[u64],
    count: usize,
    a: usize,
    b: usize,
    hi: u64,
    lo: u64,
) -> Result<usize, Refusal>
    ensures { LaneMeasured pool.now count a b hi lo (number_of result) (value_or 0 result) }
{
    lane_number(pool, count, Node(a), Node(b), Bit(hi), Bit(lo))?;
    Ok(lane_measure(pool, count, Node(a), Node(b), Bit(hi), Bit(lo)))
}
