// The most gates that the nodes of a pool need.
ghost use Rattle.std.specs.Prelude.{◌≡◌, ◌*◌, ◌≤◌, ◌<◌, length};
ghost use Rattle.pool.specs.Node.{kind_at};
ghost use Rattle.pool.specs.Rules.{Valid};
ghost use Rattle.text_parts.specs.Text as nodes;
ghost use Rattle.gates_pool.specs.Gates.{gates_for, gates_at, gates_in};

use pool::Node;
use pool::words::{Kind, kind_of, width_of};
use pool_fields::first;

// An operator of two words of w bits: Add, Sub, Mul; And, Or and Xor; the shifts.
fn operator_gates(kind: u64, w: u64) -> u64
    requires { (3 ≤ kind) × (kind < 12) × (w ≤ 129) }
    ensures { result ≡ gates_for (kind_at kind) w }
{
    if kind < Kind::SUB {
        return 7 * w;
    }
    if kind < Kind::MUL {
        return 10 * w;
    }
    if kind < Kind::AND {
        return 10 * w * w;
    }
    if kind < Kind::SHL {
        return 3 * w;
    }
    31 * w
}

// A comparison of two words of w bits.
fn compare_gates(kind: u64, w: u64) -> u64
    requires { (12 ≤ kind) × (kind < 15) × (w ≤ 129) }
    ensures { result ≡ gates_for (kind_at kind) w }
{
    if kind < Kind::ULT {
        return 4 * w;
    }
    if kind < Kind::SLT {
        return 5 * w;
    }
    5 * w + 6
}

// The gates of node n.
fn gates_at(pool: &[u64], n: Node) -> u64
    requires { nodes.Ready pool.now n.0 }
    ensures { result ≡ gates_at pool.now n.0 }
{
    let kind = kind_of(pool, n);
    if kind < Kind::ADD {
        return 0;
    }
    if kind < Kind::EQ {
        return operator_gates(kind, width_of(pool, n));
    }
    if kind < Kind::ITE {
        return compare_gates(kind, width_of(pool, first(pool, n)));
    }
    if kind < Kind::EXTRACT {
        return 3 * width_of(pool, n);
    }
    0
}

// The gates of all nodes.
pub fn gates_in(pool: &[u64], count: usize) -> u64
    requires { Valid pool.now count × (4 * count ≤ length pool.now) × (count ≤ 65535) }
    ensures { result ≡ gates_in pool.now count }
{
    let mut all = 0;
    for n in 0..count {
        all += gates_at(pool, Node(n));
    }
    all
}
