// The pool of terms: four words per node.
#![tactic(auto)]

ghost use Rattle.std.specs.Prelude.{◌≡◌};
ghost use Rattle.pool.specs.Node.{none, places};
ghost use Rattle.pool.specs.Growth.{Room, Pushed};

pub mod words;

// The number of a node of a pool.
#[derive(Clone, Copy, PartialEq, Eq, PartialOrd, Ord)]
pub struct Node(pub usize);

impl Node {
    // The nodes that one instruction may add.
    pub const RESERVE: usize = 768;
    // The number that stands for no node. A pool has no more places than this.
    pub const NONE: usize = 65535;

    pub fn none() -> Self
        ensures { result.0 ≡ none }
    {
        Node(Self::NONE)
    }
}

// The number of a bit of a term, bit 0 lowest.
#[derive(Clone, Copy, PartialEq, Eq, PartialOrd, Ord)]
pub struct Bit(pub u64);

// A node that was built, and the count after it.
#[derive(Clone, Copy)]
pub struct Built {
    pub node: Node,
    pub count: usize,
}

// The nodes that the words have places for.
pub fn places(pool: &[u64]) -> usize
    ensures { result ≡ places pool.now }
{
    (pool.len() / 4).min(Node::NONE)
}

// Writes the four words of node `count`.
pub fn push(pool: &mut [u64], count: usize, w0: u64, w1: u64, w2: u64, w3: u64) -> Built
    requires { Room pool.old count 1 }
    ensures { Pushed pool.old count pool.new result.node.0 result.count w0 w1 w2 w3 }
{
    let at = 4 * count;
    pool[at] = w0;
    pool[at + 1] = w1;
    pool[at + 2] = w2;
    pool[at + 3] = w3;
    Built {
        node: Node(count),
        count: count + 1,
    }
}
