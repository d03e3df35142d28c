// The length of a node's text node by node: each node's is its own characters and the lengths kept of its operands, up to a bound. The time
// grows with the nodes; a text may have a node far more often than the pool.
ghost use Rattle.std.specs.Prelude.{◌≡◌, ◌+◌, ◌*◌, ◌≤◌, ◌<◌, min, length, get_or};
ghost use Rattle.terms.specs.Display.{hexadecimal};
ghost use Rattle.pool.specs.Node.{wide, kind_number};
ghost use Rattle.pool_fields.specs.Fields.{op_a, op_b};
ghost use Rattle.text_operators.specs.Between.{between_text};
ghost use Rattle.text_parts.specs.Text.{text, Ready, open_text, end_text};
ghost use Rattle.text_length.specs.Known.{Known, Kept, Registers, RegisterLengths};

use pool::Node;
use pool::words::{Kind, kind_of, width_of};
use pool_fields::{cut_hi, cut_lo, first, high, low, second, third};
use text_digits::decimal_length;

// The characters that a kind from 3 to 14 has beside its operands', four bits a kind: two brackets, and the operator with its blanks.
const OPERATORS: u64 = 0x666776555555;

// How many hexadecimal digits two words have, by the place of their highest bit.
fn hex_length(low: u64, high: u64) -> usize
    ensures { (result ≡ length (hexadecimal (wide low high))) × (result ≤ 32) }
{
    if 0 < high {
        return ((131 - u64::leading_zeros(high)) / 4) as usize;
    }
    if low < 16 {
        return 1;
    }
    ((67 - u64::leading_zeros(low)) / 4) as usize
}

// The length of a Var's or a Const's text. k is the number of the node's kind.
fn leaf_length(p: &[u64], n: Node, k: u64) -> usize
    requires { Ready p.now n.0 × (k ≡ kind_number p.now n.0) × (k < 3) }
    ensures { result ≡ length (text p.now n.0) }
{
    if k == Kind::VAR {
        return decimal_length(low(p, n)) + 1;
    }
    decimal_length(width_of(p, n)) + 3 + hex_length(low(p, n), high(p, n))
}

// What stands about the operand of an Extract, and of an extension.
fn range_length(p: &[u64], n: Node) -> usize
    requires { Ready p.now n.0 × (kind_number p.now n.0 ≡ 16) }
    ensures { (result ≡ length (open_text (kind_number p.now n.0)) + length (end_text p.now n.0)) × (result ≤ 9) }
{
    let hi = cut_hi(p, n);
    let lo = cut_lo(p, n);
    decimal_length(hi.0) + decimal_length(lo.0) + 3
}

fn extension_length(p: &[u64], n: Node) -> usize
    requires { Ready p.now n.0 × (18 ≤ kind_number p.now n.0) }
    ensures { (result ≡ length (open_text (kind_number p.now n.0)) + length (end_text p.now n.0)) × (result ≤ 11) }
{
    decimal_length(width_of(p, n)) + 8
}

fn operator_characters(k: u64) -> usize
    requires { (3 ≤ k) × (k < 15) }
    ensures { (result ≡ length (open_text k) + length (between_text k) + 1) × (result < 16) }
{
    ((OPERATORS >> (4 * (k - Kind::ADD))) % 16) as usize
}

// The length that is kept of a node.
fn length_at(lengths: &[usize], n: Node) -> usize
    requires { n.0 < length lengths.now }
    ensures { result ≡ get_or lengths.now n.0 0 }
{
    let at = n.0;
    lengths[at]
}

// The lengths kept of a node's first two operands.
fn two_lengths(p: &[u64], n: Node, lengths: &[usize]) -> usize
    requires n_in_bounds { 4 * n.0 + 3 < length p.now }
    requires kept { Kept lengths.now (op_a p.now n.0) × Kept lengths.now (op_b p.now n.0) }
    ensures { result ≡ get_or lengths.now (op_a p.now n.0) 0 + get_or lengths.now (op_b p.now n.0) 0 }
{
    length_at(lengths, first(p, n)) + length_at(lengths, second(p, n))
}

// The length of a node's text up to b, where those of the nodes before it are known, each up to b.
fn known_length(p: &[u64], n: Node, b: usize, lengths: &[usize]) -> usize
    requires ready { Ready p.now n.0 }
    requires n_in_bounds { (n.0 ≤ length lengths.now) × (b ≤ 4294967296) }
    requires known { Known p.now b lengths.now n.0 }
    ensures { result ≡ min (length (text p.now n.0)) b }
{
    let k = kind_of(p, n);
    if k < Kind::ADD {
        return leaf_length(p, n, k).min(b);
    }
    if k < Kind::ITE {
        return (two_lengths(p, n, lengths) + operator_characters(k)).min(b);
    }
    if k == Kind::EXTRACT {
        return (length_at(lengths, first(p, n)) + range_length(p, n)).min(b);
    }
    if Kind::ZERO_EXTEND <= k {
        return (length_at(lengths, first(p, n)) + extension_length(p, n)).min(b);
    }
    let two = two_lengths(p, n, lengths);
    if k == Kind::ITE {
        return (two + length_at(lengths, third(p, n)) + 9).min(b);
    }
    (two + 10).min(b)
}

// The length of a node's text up to b, where those of the nodes before `from` are known. It keeps the others'.
pub fn length_from(p: &[u64], from: Node, n: Node, b: usize, lengths: &mut [usize]) -> usize
    requires ready { Ready p.now n.0 }
    requires n_in_bounds { (n.0 < length lengths.old) × (b ≤ 4294967296) }
    requires known { Known p.now b lengths.old from.0 }
    ensures { result ≡ min (length (text p.now n.0)) b }
{
    for j in from.0..=n.0 {
        lengths[j] = known_length(p, Node(j), b, lengths);
    }
    length_at(lengths, n)
}

// The lengths of the registers' texts, and places for those of the other nodes of a small pool.
fn register_lengths() -> [usize; 256]
    ensures { RegisterLengths result }
{
    let mut lengths = [0usize; 256];
    for r in 0..32 {
        lengths[r] = decimal_length(r as u64) + 1;
    }
    lengths
}

// Places for the lengths of a pool of at most 1,024 nodes, and of any. The first begin with ones: of zeros the compiler makes a call.
fn some_places() -> [usize; 1024]
    ensures { length result ≡ 1024 }
{
    [1usize; 1024]
}

fn all_places() -> [usize; 65536]
    ensures { length result ≡ 65536 }
{
    [0usize; 65536]
}

// The length of a node's text up to b, of a pool that begins with the registers.
pub fn length_past_registers(p: &[u64], n: Node, b: usize) -> usize
    requires ready { Ready p.now n.0 × Registers p.now }
    requires le_n { (32 ≤ n.0) × (n.0 < 256) }
    requires le_b { (4 ≤ b) × (b ≤ 4294967296) }
    ensures { result ≡ min (length (text p.now n.0)) b }
{
    let mut lengths = register_lengths();
    length_from(p, Node(32), n, b, &mut lengths)
}

// The same of any pool, by the node's number. The places take 8 kB of stack here, and 0.5 MB below.
pub fn length_of_few(p: &[u64], n: Node, b: usize) -> usize
    requires ready { Ready p.now n.0 }
    requires n_bound { (n.0 < 1024) × (b ≤ 4294967296) }
    ensures { result ≡ min (length (text p.now n.0)) b }
{
    let mut lengths = some_places();
    length_from(p, Node(0), n, b, &mut lengths)
}

pub fn length_of_many(p: &[u64], n: Node, b: usize) -> usize
    requires ready { Ready p.now n.0 }
    requires n_bound { (n.0 < 65536) × (b ≤ 4294967296) }
    ensures { result ≡ min (length (text p.now n.0)) b }
{
    let mut lengths = all_places();
    length_from(p, Node(0), n, b, &mut lengths)
}
