// The script of a pool as bytes (document 02, S-1): its lines.
#![tactic(auto)]

ghost use Rattle.std.specs.Prelude.{◌+◌, ◌*◌, ◌<◌, length};
ghost use Rattle.text_digits.specs.Writing.{Room, Wrote};
ghost use Rattle.text_parts.specs.Text.{Ready};
ghost use Rattle.script_text.specs.Lines.{line_at, declaration_line, claim_lines, AllReady};
ghost use Rattle.text_series.specs.Series.{up_to};
ghost use Rattle.script_meaning.specs.Script.{script_of};

use pool::Node;
use pool::words::{Kind, kind_of, width_of};
use term::{put_name, put_node_name, put_register_name, put_sort, put_term};
use text_digits::put;

pub mod term;

// The line that defines a node; nothing for a Var.
pub fn put_definition(p: &[u64], n: Node, buf: &mut [u8], at: usize) -> usize
    requires ready { Ready p.now n.0 }
    requires room { Room buf.old at (line_at p.now n.0) }
    ensures { Wrote buf.old at (line_at p.now n.0) result buf.new }
{
    let k = kind_of(p, n);
    if k == Kind::VAR {
        return at;
    }
    let w = width_of(p, n);
    let i = put(b"(define-fun ", buf, at);
    let j = put_node_name(n, buf, i);
    let l = put(b" () ", buf, j);
    let m = put_sort(w, buf, l);
    let o = put(b" ", buf, m);
    let q = put_term(p, n, k, buf, o);
    put(b")\n", buf, q)
}

// The line that declares a register.
fn put_declaration(r: u64, buf: &mut [u8], at: usize) -> usize
    requires { Room buf.old at (declaration_line r) }
    ensures { Wrote buf.old at (declaration_line r) result buf.new }
{
    let i = put(b"(declare-const ", buf, at);
    let j = put_register_name(r, buf, i);
    put(b" (_ BitVec 128))\n", buf, j)
}

pub fn put_declarations(buf: &mut [u8], at: usize) -> usize
    requires { Room buf.old at (up_to 32 declaration_line) }
    ensures { Wrote buf.old at (up_to 32 declaration_line) result buf.new }
{
    let mut end = at;
    for r in 0..32 {
        end = put_declaration(r, buf, end);
    }
    end
}

// The lines of the nodes below count.
fn put_definitions(p: &[u64], count: usize, buf: &mut [u8], at: usize) -> usize
    requires all_ready { AllReady p.now count }
    requires room { Room buf.old at (up_to count (line_at p.now)) }
    ensures { Wrote buf.old at (up_to count (line_at p.now)) result buf.new }
{
    let mut end = at;
    for n in 0..count {
        end = put_definition(p, Node(n), buf, end);
    }
    end
}

// The last two lines.
pub fn put_claim(p: &[u64], x: Node, y: Node, buf: &mut [u8], at: usize) -> usize
    requires x_in_bounds { (4 * x.0 + 3 < length p.now) × (4 * y.0 + 3 < length p.now) }
    requires room { Room buf.old at (claim_lines p.now x.0 y.0) }
    ensures { Wrote buf.old at (claim_lines p.now x.0 y.0) result buf.new }
{
    let i = put(b"(assert (distinct ", buf, at);
    let j = put_name(p, x, buf, i);
    let l = put(b" ", buf, j);
    let m = put_name(p, y, buf, l);
    put(b"))\n(check-sat)\n", buf, m)
}

// The whole script.
pub fn put_script(p: &[u64], count: usize, x: Node, y: Node, buf: &mut [u8], at: usize) -> usize
    requires all_ready { AllReady p.now count × (4 * x.0 + 3 < length p.now) × (4 * y.0 + 3 < length p.now) }
    requires room { Room buf.old at (script_of p.now count x.0 y.0) }
    ensures { Wrote buf.old at (script_of p.now count x.0 y.0) result buf.new }
{
    let i = put(b"(set-logic QF_BV)\n", buf, at);
    let j = put_declarations(buf, i);
    let l = put_definitions(p, count, buf, j);
    put_claim(p, x, y, buf, l)
}
