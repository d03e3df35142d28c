// The length of a pool's script (document 02, S-1), with no byte written: each line's length is a sum.
#![tactic(auto)]

ghost use Rattle.std.specs.Prelude.{◌≡◌, ◌+◌, ◌*◌, ◌≤◌, ◌<◌, length};
ghost use Rattle.facts.specs.Answer.{number_of, value_or};
ghost use Rattle.terms.specs.Display.{bytes};
ghost use Rattle.pool.specs.Node.{kind_at, kind_number};
ghost use Rattle.text_series.specs.Series.{up_to};
ghost use Rattle.script_meaning.specs.Sexp.{show};
ghost use Rattle.script_meaning.specs.Script.{name_of, term_of, script_of, sort_by, function_of, apply1, apply2, apply3, index1, index2};
ghost use Rattle.script_text.specs.Lines.{line_at};
ghost use Rattle.script_length.specs.Answer.{Named, AllNamed, script_number, Measured};

use facts::Refusal;
use pool::words::{Kind, kind_of, width_of};
use pool::{Bit, Node};
use pool_check::{of_width, pool_check};
use pool_fields::{cut_hi, cut_lo, first, low, second, third};
use text_decimals::number_length;

// A node's name.
fn name_length(p: &[u64], n: Node) -> usize
    requires { Named p.now n.0 }
    ensures { (result ≡ length (name_of p.now n.0)) × (result ≤ 6) }
{
    if kind_of(p, n) == Kind::VAR {
        return number_length(low(p, n)) + 1;
    }
    number_length(n.0 as u64) + 1
}

// Bool, or (_ BitVec w).
pub fn sort_length(width: u64) -> usize
    requires { width < 1000 }
    ensures { (result ≡ length (show (sort_by width))) × (result ≤ 16) }
{
    if width == 0 {
        return 4;
    }
    number_length(width) + 11
}

// The function of a kind from 3 on.
fn function_length(k: u64) -> usize
    requires { (3 ≤ k) × (k < 20) }
    ensures { (result ≡ length (function_of (kind_at k))) × (result ≤ 11) }
{
    match k {
        Kind::ADD => 5,
        Kind::SUB => 5,
        Kind::MUL => 5,
        Kind::AND => 5,
        Kind::OR => 4,
        Kind::XOR => 5,
        Kind::SHL => 5,
        Kind::LSHR => 6,
        Kind::ASHR => 6,
        Kind::EQ => 1,
        Kind::ULT => 5,
        Kind::SLT => 5,
        Kind::ITE => 3,
        Kind::EXTRACT => 7,
        Kind::CONCAT => 6,
        Kind::ZERO_EXTEND => 11,
        _ => 11,
    }
}

// (f a b)
fn two_length(p: &[u64], k: u64, a: Node, b: Node) -> usize
    requires { (3 ≤ k) × (k < 20) × Named p.now a.0 × Named p.now b.0 }
    ensures { (result ≡ length (show (apply2 (function_of (kind_at k)) (name_of p.now a.0) (name_of p.now b.0)))) × (result ≤ 131) }
{
    function_length(k) + name_length(p, a) + name_length(p, b) + 4
}

// (ite a b c)
fn three_length(p: &[u64], a: Node, b: Node, c: Node) -> usize
    requires { Named p.now a.0 × Named p.now b.0 × Named p.now c.0 }
    ensures { (result ≡ length (show (apply3 (bytes "ite") (name_of p.now a.0) (name_of p.now b.0) (name_of p.now c.0)))) × (result ≤ 131) }
{
    name_length(p, a) + name_length(p, b) + name_length(p, c) + 8
}

// ((_ extract hi lo) a)
pub fn cut_length(p: &[u64], a: Node, hi: Bit, lo: Bit) -> usize
    requires { Named p.now a.0 × (hi.0 < 1000) × (lo.0 < 1000) }
    ensures { (result ≡ length (show (apply1 (index2 (bytes "extract") hi.0 lo.0) (name_of p.now a.0)))) × (result ≤ 131) }
{
    number_length(hi.0) + number_length(lo.0) + name_length(p, a) + 16
}

// ((_ zero_extend by) a), ((_ sign_extend by) a)
fn extension_length(p: &[u64], k: u64, by: u64, a: Node) -> usize
    requires { (3 ≤ k) × (k < 20) × Named p.now a.0 × (by < 1000) }
    ensures { (result ≡ length (show (apply1 (index1 (function_of (kind_at k)) by) (name_of p.now a.0)))) × (result ≤ 131) }
{
    function_length(k) + number_length(by) + name_length(p, a) + 8
}

// The term of a node that is no Var. k is the number of its kind.
pub fn term_length(p: &[u64], n: Node, k: u64) -> usize
    requires { Named p.now n.0 × (k ≡ kind_number p.now n.0) × (2 ≤ k) }
    ensures { (result ≡ length (show (term_of p.now n.0))) × (result ≤ 131) }
{
    if k == Kind::CONST {
        return (width_of(p, n) as usize) + 2;
    }
    if k == Kind::ITE {
        return three_length(p, first(p, n), second(p, n), third(p, n));
    }
    if k == Kind::EXTRACT {
        let hi = cut_hi(p, n);
        let lo = cut_lo(p, n);
        return cut_length(p, first(p, n), hi, lo);
    }
    if k < Kind::ZERO_EXTEND {
        return two_length(p, k, first(p, n), second(p, n));
    }
    let by = width_of(p, n) - width_of(p, first(p, n));
    extension_length(p, k, by, first(p, n))
}

// The line that defines a node; nothing for a Var.
fn line_length(p: &[u64], n: Node) -> usize
    requires { Named p.now n.0 }
    ensures { (result ≡ length (line_at p.now n.0)) × (result ≤ 192) }
{
    let k = kind_of(p, n);
    if k == Kind::VAR {
        return 0;
    }
    let w = width_of(p, n);
    number_length(n.0 as u64) + sort_length(w) + term_length(p, n, k) + 20
}

// The lines of the nodes below count.
fn lines_length(p: &[u64], count: usize) -> usize
    requires { AllNamed p.now count × (count ≤ 65535) }
    ensures { (result ≡ length (up_to count (line_at p.now))) × (result ≤ 192 * count) }
{
    let mut sum = 0;
    for n in 0..count {
        sum += line_length(p, Node(n));
    }
    sum
}

// The whole script: the first line and 32 declarations have 1,128 bytes.
pub fn measure(p: &[u64], count: usize, x: Node, y: Node) -> usize
    requires { AllNamed p.now count × (count ≤ 65535) × (x.0 < count) × (y.0 < count) }
    ensures { result ≡ length (script_of p.now count x.0 y.0) }
{
    let claim = name_length(p, x) + name_length(p, y) + 34;
    lines_length(p, count) + claim + 1128
}

// The refusal that has nothing to do with a buffer: of a bad pool, and then of a node that may not be chosen.
pub fn script_number(pool: &[u64], count: usize, a: Node, b: Node) -> Result<(), Refusal>
    ensures { number_of result ≡ script_number pool.now count a.0 b.0 0 }
{
    if !pool_check(pool, count) {
        return Err(Refusal::Pool);
    }
    if !of_width(pool, count, a, 128) {
        return Err(Refusal::Node);
    }
    if !of_width(pool, count, b, 128) {
        return Err(Refusal::Node);
    }
    Ok(())
}

// The length of the script that asks whether nodes a and b differ. Refuses a bad pool, and then a node that may not be chosen.
pub fn script_length(pool: &[u64], count: usize, a: usize, b: usize) -> Result<usize, Refusal>
    ensures { Measured pool.now count a b (number_of result) (value_or 0 result) }
{
    script_number(pool, count, Node(a), Node(b))?;
    Ok(measure(pool, count, Node(a), Node(b)))
}
