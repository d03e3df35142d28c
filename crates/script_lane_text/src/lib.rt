// The script of a pool by lanes as bytes: the lines that S-1's form does not have.
#![tactic(auto)]

ghost use Rattle.std.specs.Prelude.{◌≡◌, ◌+◌, ◌*◌, ◌≤◌, ◌<◌, length};
ghost use Rattle.pool.specs.Node.{kind_number};
ghost use Rattle.text_digits.specs.Writing.{Room, Wrote};
ghost use Rattle.text_parts.specs.Text.{Ready};
ghost use Rattle.text_series.specs.Series.{up_to};
ghost use Rattle.script_text.specs.Lines.{AllReady};
ghost use Rattle.script_lane_meaning.specs.LaneScript.{lane_script_of};
ghost use Rattle.script_lane_text.specs.Lines.{constant_line, equation_line, lines_at, lane_lines};

use pool::words::{Kind, kind_of, width_of};
use pool::{Bit, Node};
use script_text::put_declarations;
use script_text::term::{put_cut, put_node_name, put_sort, put_term};
use text_digits::put;

// The line that declares the constant of a node of so many bits.
fn put_declared(n: Node, width: u64, buf: &mut [u8], at: usize) -> usize
    requires { Room buf.old at (constant_line n.0 width) }
    ensures { Wrote buf.old at (constant_line n.0 width) result buf.new }
{
    let i = put(b"(declare-const ", buf, at);
    let j = put_node_name(n, buf, i);
    let l = put(b" ", buf, j);
    let m = put_sort(width, buf, l);
    put(b")\n", buf, m)
}

// The line of the equation of a node that is no Var. k is the number of its kind.
fn put_equation(p: &[u64], n: Node, k: u64, buf: &mut [u8], at: usize) -> usize
    requires ready { Ready p.now n.0 × (k ≡ kind_number p.now n.0) × (2 ≤ k) }
    requires room { Room buf.old at (equation_line p.now n.0) }
    ensures { Wrote buf.old at (equation_line p.now n.0) result buf.new }
{
    let i = put(b"(assert (= ", buf, at);
    let name = put_node_name(n, buf, i);
    let l = put(b" ", buf, name);
    let m = put_term(p, n, k, buf, l);
    put(b"))\n", buf, m)
}

// Both lines of a node; nothing for a Var.
fn put_node(p: &[u64], n: Node, buf: &mut [u8], at: usize) -> usize
    requires ready { Ready p.now n.0 }
    requires room { Room buf.old at (lines_at p.now n.0) }
    ensures { Wrote buf.old at (lines_at p.now n.0) result buf.new }
{
    let k = kind_of(p, n);
    if k == Kind::VAR {
        return at;
    }
    let w = width_of(p, n);
    let i = put_declared(n, w, buf, at);
    put_equation(p, n, k, buf, i)
}

// The lines of the nodes below count.
fn put_nodes(p: &[u64], count: usize, buf: &mut [u8], at: usize) -> usize
    requires all_ready { AllReady p.now count }
    requires room { Room buf.old at (up_to count (lines_at p.now)) }
    ensures { Wrote buf.old at (up_to count (lines_at p.now)) result buf.new }
{
    let mut end = at;
    for n in 0..count {
        end = put_node(p, Node(n), buf, end);
    }
    end
}

// The last two lines.
fn put_lanes(p: &[u64], x: Node, y: Node, hi: Bit, lo: Bit, buf: &mut [u8], at: usize) -> usize
    requires x_in_bounds { (4 * x.0 + 3 < length p.now) × (4 * y.0 + 3 < length p.now) }
    requires room { Room buf.old at (lane_lines p.now x.0 y.0 hi.0 lo.0) }
    ensures { Wrote buf.old at (lane_lines p.now x.0 y.0 hi.0 lo.0) result buf.new }
{
    let i = put(b"(assert (distinct ", buf, at);
    let j = put_cut(p, x, hi, lo, buf, i);
    let l = put(b" ", buf, j);
    let m = put_cut(p, y, hi, lo, buf, l);
    put(b"))\n(check-sat)\n", buf, m)
}

// The whole script.
pub fn put_lane_script(
    p: &[u64],
    count: usize,
    x: Node,
    y: Node,
    hi: Bit,
    lo: Bit,
    buf: &mut [u8],
    at: usize,
) -> usize
    requires all_ready { AllReady p.now count × (4 * x.0 + 3 < length p.now) × (4 * y.0 + 3 < length p.now) }
    requires room { Room buf.old at (lane_script_of p.now count x.0 y.0 hi.0 lo.0) }
    ensures { Wrote buf.old at (lane_script_of p.now count x.0 y.0 hi.0 lo.0) result buf.new }
{
    let i = put(b"(set-logic QF_BV)\n", buf, at);
    let j = put_declarations(buf, i);
    let l = put_nodes(p, count, buf, j);
    put_lanes(p, x, y, hi, lo, buf, l)
}
