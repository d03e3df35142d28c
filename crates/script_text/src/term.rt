// Names, sorts and terms as a script spells them (document 02, S-1).
ghost use Rattle.std.specs.Prelude.{◌≡◌, ◌++◌, ◌+◌, ◌*◌, ◌/◌, ◌%◌, ◌^◌, ◌≤◌, ◌<◌, length};
ghost use Rattle.terms.specs.Display.{bytes};
ghost use Rattle.pool.specs.Node.{wide, kind_at, kind_number};
ghost use Rattle.text_digits.specs.Writing.{Room, Wrote};
ghost use Rattle.text_parts.specs.Text.{Ready};
ghost use Rattle.script_meaning.specs.Sexp.{show};
ghost use Rattle.script_meaning.specs.Script.{binary, node_name, register_name, name_of, term_of, sort_by, function_of, apply1, apply2, apply3, index1, index2};

use pool::words::{Kind, kind_of, width_of};
use pool::{Bit, Node};
use pool_fields::{cut_hi, cut_lo, first, high, low, second, third};
use text_decimals::put_number;
use text_digits::put;

// Bit k of two words.
fn bit(low: u64, high: u64, k: u64) -> u8
    requires { (k < 129) × (high < 2 ^ 64) × (low < 2 ^ 64) }
    ensures { result ≡ 48 + wide low high / 2 ^ k % 2 }
{
    if k < 64 {
        return (48 + (low >> k) % 2) as u8;
    }
    if k < 128 {
        return (48 + (high >> (k - 64)) % 2) as u8;
    }
    48
}

// So many binary digits of two words, the most significant first.
fn put_binary(low: u64, high: u64, width: u64, buf: &mut [u8], at: usize) -> usize
    requires width_bound { width ≤ 129 }
    requires room { Room buf.old at (binary width (wide low high)) }
    ensures { Wrote buf.old at (binary width (wide low high)) result buf.new }
{
    let mut i = at;
    for k in (0..width).rev() {
        buf[i] = bit(low, high, k);
        i += 1;
    }
    i
}

// A node's own name, and a register's.
pub fn put_node_name(n: Node, buf: &mut [u8], at: usize) -> usize
    requires { Room buf.old at (node_name n.0) }
    ensures { Wrote buf.old at (node_name n.0) result buf.new }
{
    let i = put(b"n", buf, at);
    put_number(n.0 as u64, buf, i)
}

// Bool, or (_ BitVec w).
pub fn put_sort(width: u64, buf: &mut [u8], at: usize) -> usize
    requires { Room buf.old at (show (sort_by width)) }
    ensures { Wrote buf.old at (show (sort_by width)) result buf.new }
{
    if width == 0 {
        return put(b"Bool", buf, at);
    }
    let i = put(b"(_ BitVec ", buf, at);
    let j = put_number(width, buf, i);
    put(b")", buf, j)
}

pub fn put_register_name(r: u64, buf: &mut [u8], at: usize) -> usize
    requires { Room buf.old at (register_name r) }
    ensures { Wrote buf.old at (register_name r) result buf.new }
{
    let i = put(b"r", buf, at);
    put_number(r, buf, i)
}

// The name of a node: a Var is its register.
pub fn put_name(p: &[u64], n: Node, buf: &mut [u8], at: usize) -> usize
    requires n_in_bounds { 4 * n.0 + 3 < length p.now }
    requires room { Room buf.old at (name_of p.now n.0) }
    ensures { Wrote buf.old at (name_of p.now n.0) result buf.new }
{
    if kind_of(p, n) == Kind::VAR {
        return put_register_name(low(p, n), buf, at);
    }
    put_node_name(n, buf, at)
}

// The function of a kind from 3 on.
fn put_function(k: u64, buf: &mut [u8], at: usize) -> usize
    requires le_k { (3 ≤ k) × (k < 20) }
    requires room { Room buf.old at (function_of (kind_at k)) }
    ensures { Wrote buf.old at (function_of (kind_at k)) result buf.new }
{
    match k {
        Kind::ADD => put(b"bvadd", buf, at),
        Kind::SUB => put(b"bvsub", buf, at),
        Kind::MUL => put(b"bvmul", buf, at),
        Kind::AND => put(b"bvand", buf, at),
        Kind::OR => put(b"bvor", buf, at),
        Kind::XOR => put(b"bvxor", buf, at),
        Kind::SHL => put(b"bvshl", buf, at),
        Kind::LSHR => put(b"bvlshr", buf, at),
        Kind::ASHR => put(b"bvashr", buf, at),
        Kind::EQ => put(b"=", buf, at),
        Kind::ULT => put(b"bvult", buf, at),
        Kind::SLT => put(b"bvslt", buf, at),
        Kind::ITE => put(b"ite", buf, at),
        Kind::EXTRACT => put(b"extract", buf, at),
        Kind::CONCAT => put(b"concat", buf, at),
        Kind::ZERO_EXTEND => put(b"zero_extend", buf, at),
        _ => put(b"sign_extend", buf, at),
    }
}

// (f a b)
fn put_two(p: &[u64], k: u64, a: Node, b: Node, buf: &mut [u8], at: usize) -> usize
    requires le_k { (3 ≤ k) × (k < 20) × (4 * a.0 + 3 < length p.now) × (4 * b.0 + 3 < length p.now) }
    requires room { Room buf.old at (show (apply2 (function_of (kind_at k)) (name_of p.now a.0) (name_of p.now b.0))) }
    ensures { Wrote buf.old at (show (apply2 (function_of (kind_at k)) (name_of p.now a.0) (name_of p.now b.0))) result buf.new }
{
    let i = put(b"(", buf, at);
    let j = put_function(k, buf, i);
    let l = put(b" ", buf, j);
    let m = put_name(p, a, buf, l);
    let o = put(b" ", buf, m);
    let q = put_name(p, b, buf, o);
    put(b")", buf, q)
}

// (ite a b c)
fn put_three(p: &[u64], a: Node, b: Node, c: Node, buf: &mut [u8], at: usize) -> usize
    requires a_in_bounds { (4 * a.0 + 3 < length p.now) × (4 * b.0 + 3 < length p.now) × (4 * c.0 + 3 < length p.now) }
    requires room { Room buf.old at (show (apply3 (bytes "ite") (name_of p.now a.0) (name_of p.now b.0) (name_of p.now c.0))) }
    ensures { Wrote buf.old at (show (apply3 (bytes "ite") (name_of p.now a.0) (name_of p.now b.0)
        (name_of p.now c.0))) result buf.new }
{
    let i = put(b"(ite ", buf, at);
    let j = put_name(p, a, buf, i);
    let l = put(b" ", buf, j);
    let m = put_name(p, b, buf, l);
    let o = put(b" ", buf, m);
    let q = put_name(p, c, buf, o);
    put(b")", buf, q)
}

// ((_ extract hi lo) a)
pub fn put_cut(p: &[u64], a: Node, hi: Bit, lo: Bit, buf: &mut [u8], at: usize) -> usize
    requires a_in_bounds { 4 * a.0 + 3 < length p.now }
    requires room { Room buf.old at (show (apply1 (index2 (bytes "extract") hi.0 lo.0) (name_of p.now a.0))) }
    ensures { Wrote buf.old at (show (apply1 (index2 (bytes "extract") hi.0 lo.0) (name_of p.now a.0))) result buf.new }
{
    let i = put(b"((_ extract ", buf, at);
    let j = put_number(hi.0, buf, i);
    let l = put(b" ", buf, j);
    let m = put_number(lo.0, buf, l);
    let o = put(b") ", buf, m);
    let q = put_name(p, a, buf, o);
    put(b")", buf, q)
}

// ((_ zero_extend by) a), ((_ sign_extend by) a)
fn put_extension(p: &[u64], k: u64, by: u64, a: Node, buf: &mut [u8], at: usize) -> usize
    requires le_k { (3 ≤ k) × (k < 20) × (4 * a.0 + 3 < length p.now) }
    requires room { Room buf.old at (show (apply1 (index1 (function_of (kind_at k)) by) (name_of p.now a.0))) }
    ensures { Wrote buf.old at (show (apply1 (index1 (function_of (kind_at k)) by) (name_of p.now a.0))) result buf.new }
{
    let i = put(b"((_ ", buf, at);
    let j = put_function(k, buf, i);
    let l = put(b" ", buf, j);
    let m = put_number(by, buf, l);
    let o = put(b") ", buf, m);
    let q = put_name(p, a, buf, o);
    put(b")", buf, q)
}

// #b and every bit.
fn put_constant(low: u64, high: u64, width: u64, buf: &mut [u8], at: usize) -> usize
    requires width_bound { width ≤ 129 }
    requires room { Room buf.old at (bytes "#b" ++ binary width (wide low high)) }
    ensures { Wrote buf.old at (bytes "#b" ++ binary width (wide low high)) result buf.new }
{
    let i = put(b"#b", buf, at);
    put_binary(low, high, width, buf, i)
}

// The term of a node that is no Var. k is the number of its kind.
pub fn put_term(p: &[u64], n: Node, k: u64, buf: &mut [u8], at: usize) -> usize
    requires ready { Ready p.now n.0 × (k ≡ kind_number p.now n.0) × (2 ≤ k) }
    requires room { Room buf.old at (show (term_of p.now n.0)) }
    ensures { Wrote buf.old at (show (term_of p.now n.0)) result buf.new }
{
    if k == Kind::CONST {
        return put_constant(low(p, n), high(p, n), width_of(p, n), buf, at);
    }
    if k == Kind::ITE {
        return put_three(p, first(p, n), second(p, n), third(p, n), buf, at);
    }
    if k == Kind::EXTRACT {
        let hi = cut_hi(p, n);
        let lo = cut_lo(p, n);
        return put_cut(p, first(p, n), hi, lo, buf, at);
    }
    if k < Kind::ZERO_EXTEND {
        return put_two(p, k, first(p, n), second(p, n), buf, at);
    }
    let by = width_of(p, n) - width_of(p, first(p, n));
    put_extension(p, k, by, first(p, n), buf, at)
}
