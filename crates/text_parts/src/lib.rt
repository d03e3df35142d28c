// The parts of a node's text: what `Display` of the Rust's expr.rs writes before and after its operands, as bytes into a lent
// buffer. k is the number of the node's kind.
#![tactic(auto)]

ghost use Rattle.std.specs.Prelude.{◌≡◌, true, ◌∷◌, ◌++◌, ◌≤◌, ◌<◌};
ghost use Rattle.terms.specs.Display.{bytes, decimal, hexadecimal};
ghost use Rattle.pool.specs.Node.{wide, kind_number};
ghost use Rattle.text_digits.specs.Writing.{Room, Wrote};
ghost use Rattle.text_parts.specs.Text.{text, Ready, open_text, width_text, end_text, single};

use pool::Node;
use pool::words::{Kind, width_of};
use pool_fields::{cut_hi, cut_lo, high, low};
use text_digits::{put, put_decimal, put_hex};

// A character and a number.
fn put_numbered(c: u8, x: u64, buf: &mut [u8], at: usize) -> usize
    requires { Room buf.old at (c ∷ decimal x) }
    ensures { Wrote buf.old at (c ∷ decimal x) result buf.new }
{
    buf[at] = c;
    put_decimal(x, buf, at + 1)
}

// A constant's value.
fn put_value(lo: u64, hi: u64, buf: &mut [u8], at: usize) -> usize
    requires { Room buf.old at (bytes "0x" ++ hexadecimal (wide lo hi)) }
    ensures { Wrote buf.old at (bytes "0x" ++ hexadecimal (wide lo hi)) result buf.new }
{
    let i = put(b"0x", buf, at);
    put_hex(lo, hi, buf, i)
}

// Var and Const, which have no operand.
pub fn put_leaf(p: &[u64], n: Node, k: u64, buf: &mut [u8], at: usize) -> usize
    requires ready { Ready p.now n.0 × (k ≡ kind_number p.now n.0) × (k < 3) }
    requires room { Room buf.old at (text p.now n.0) }
    ensures { Wrote buf.old at (text p.now n.0) result buf.new }
{
    if k == Kind::VAR {
        return put_numbered(b'v', low(p, n), buf, at);
    }
    let i = put_value(low(p, n), high(p, n), buf, at);
    put_numbered(b':', width_of(p, n), buf, i)
}

// What comes before the operands. An Extract has nothing there.
pub fn put_open(k: u64, buf: &mut [u8], at: usize) -> usize
    requires { (3 ≤ k) × (k < 20) × Room buf.old at (open_text k) }
    ensures { Wrote buf.old at (open_text k) result buf.new }
{
    if k < Kind::ITE {
        return put(b"(", buf, at);
    }
    if k == Kind::EXTRACT {
        return at;
    }
    match k {
        Kind::ITE => put(b"ite(", buf, at),
        Kind::CONCAT => put(b"concat(", buf, at),
        Kind::ZERO_EXTEND => put(b"zext(", buf, at),
        _ => put(b"sext(", buf, at),
    }
}

// An extension's width.
fn put_width(w: u64, buf: &mut [u8], at: usize) -> usize
    requires { Room buf.old at (width_text w) }
    ensures { Wrote buf.old at (width_text w) result buf.new }
{
    let i = put(b", ", buf, at);
    let j = put_decimal(w, buf, i);
    put(b")", buf, j)
}

// What comes after the operand of an Extract and of an extension.
pub fn put_end(p: &[u64], n: Node, k: u64, buf: &mut [u8], at: usize) -> usize
    requires ready { Ready p.now n.0 × (k ≡ kind_number p.now n.0) × (single k ≡ true) }
    requires room { Room buf.old at (end_text p.now n.0) }
    ensures { Wrote buf.old at (end_text p.now n.0) result buf.new }
{
    if k == Kind::EXTRACT {
        let hi = cut_hi(p, n);
        let lo = cut_lo(p, n);
        let i = put_numbered(b'[', hi.0, buf, at);
        let j = put_numbered(b':', lo.0, buf, i);
        return put(b"]", buf, j);
    }
    put_width(width_of(p, n), buf, at)
}

// Whether a kind that has operands has only one: Extract and the extensions.
pub fn is_single(k: u64) -> bool
    ensures { result ≡ single k }
{
    (k == Kind::EXTRACT) | (Kind::ZERO_EXTEND <= k)
}
