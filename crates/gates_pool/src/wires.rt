// Nodes that need no gates: each bit is a literal of a register's bit, of a constant, or of an operand.
ghost use Rattle.std.specs.Prelude.{◌≡◌, ◌+◌, ◌*◌, ◌/◌, ◌%◌, ◌^◌, ◌≤◌, ◌<◌, length, get_or};
ghost use Rattle.pool.specs.Node.{kind_number, width_at, wide};
ghost use Rattle.gates_words.specs.Words.{Puts};
ghost use Rattle.gates_pool.specs.Bits.{Placed, NoGates, wire_at};

use pool::Node;
use pool::words::{Kind, kind_of, width_of};
use pool_fields::{first, high, low, second};

// Bit j of a constant of two words.
fn constant_bit(low: u64, high: u64, j: usize) -> u64
    ensures { result ≡ wide low high / 2 ^ j % 2 }
{
    if j < 64 {
        return (low >> (j as u64)) % 2;
    }
    if j < 128 {
        return (high >> ((j - 64) as u64)) % 2;
    }
    0
}

// The literal of bit j of a Concat or an extension.
fn joined_wire(pool: &[u64], n: Node, kind: u64, bits: &[u64], j: usize) -> u64
    requires { Placed pool.now n.0 bits.now × (kind ≡ kind_number pool.now n.0) × (17 ≤ kind) × (j < width_at pool.now n.0) }
    ensures { result ≡ wire_at pool.now bits.now n.0 j }
{
    let a = first(pool, n);
    let at = 129 * a.0;
    if kind == Kind::CONCAT {
        let b = second(pool, n);
        let below = width_of(pool, b) as usize;
        if j < below {
            return bits[129 * b.0 + j];
        }
        return bits[at + (j - below)];
    }
    let own = width_of(pool, a) as usize;
    if j < own {
        return bits[at + j];
    }
    if kind == Kind::SIGN_EXTEND {
        return bits[at + (own - 1)];
    }
    0
}

// The literal of bit j of a node.
fn wire(pool: &[u64], n: Node, bits: &[u64], j: usize) -> u64
    requires { Placed pool.now n.0 bits.now × NoGates pool.now n.0 × (j < width_at pool.now n.0) }
    ensures { result ≡ wire_at pool.now bits.now n.0 j }
{
    let kind = kind_of(pool, n);
    if kind == Kind::VAR {
        return 2 * (1 + 128 * low(pool, n) + j as u64);
    }
    if kind == Kind::CONST {
        return constant_bit(low(pool, n), high(pool, n), j);
    }
    if kind == Kind::EXTRACT {
        let a = first(pool, n);
        let lo = high(pool, n) as usize;
        return bits[129 * a.0 + (lo + j)];
    }
    joined_wire(pool, n, kind, bits, j)
}

// The literals of a node.
pub fn wires(pool: &[u64], n: Node, bits: &mut [u64])
    requires { Placed pool.now n.0 bits.old × NoGates pool.now n.0 }
    ensures { Puts bits.old bits.new (129 * n.0) (width_at pool.now n.0)
        (wire_at pool.now bits.old n.0) }
{
    let w = width_of(pool, n) as usize;
    let at = 129 * n.0;
    for j in 0..w {
        bits[at + j] = wire(pool, n, bits, j);
    }
}
