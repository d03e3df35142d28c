// Which nodes of a pool unfold to the same tree (document 02, S-13). The Rust has no counterpart.
#![tactic(auto)]

ghost use Rattle.std.specs.Prelude.{◌≡◌, ◌+◌, ◌*◌, ◌≤◌, ◌<◌, length, get_or};
ghost use Rattle.pool.specs.Rules.{Valid};
ghost use Rattle.pool_fields.specs.Fields.{op_c};
ghost use Rattle.canonical_classes.specs.Key.{class_if, key_of, mix_of, bucket_of, other_mix_of, spread_of, row_of, way_of, next_of};
ghost use Rattle.canonical_classes.specs.Class.{Empty, Low, Rises, Found, Classes, Long, Laid, Linked, Kept, slots_of};

use pool::Node;
use pool::words::{kind_of, kind_word_at, operands_word};
use pool_fields::{first, high, low, second, third};
use pool_operands::{has_a, has_b, has_c};

// A node's word 0, the classes of its operands, node 0 for an operand that its kind has not, and its words 2 and 3.
#[derive(Clone, Copy, PartialEq, Eq)]
pub struct Key {
    pub word: u64,
    pub a: Node,
    pub b: Node,
    pub c: Node,
    pub x: u64,
    pub y: u64,
}

// The node that an array has for node m. The class of m, the first node with its tree, is what `class` has for it.
pub fn node_at(array: &[u16; 65536], m: Node) -> Node
    requires { m.0 < 65536 }
    ensures { (result.0 ≡ get_or array.now m.0 0) × (result.0 < 65536) }
{
    let at = m.0;
    Node(usize::from(array[at]))
}

// The class of the node m, node 0 if there is no such operand.
fn class_if(there: bool, class: &[u16; 65536], m: Node) -> Node
    requires { m.0 < 65536 }
    ensures { (result.0 ≡ class_if there class.now m.0) × (result.0 < 65536) }
{
    if there {
        return node_at(class, m);
    }
    Node(0)
}

fn key_of(pool: &[u64], class: &[u16; 65536], n: Node) -> Key
    requires { (4 * n.0 + 3 < length pool.now) × (op_c pool.now n.0 < 65536) }
    ensures { (result ≡ key_of pool.now class.now n.0) × (result.a.0 < 65536) × (result.b.0 < 65536) × (result.c.0 < 65536) }
{
    let kind = kind_of(pool, n);
    Key {
        word: kind_word_at(pool, n),
        a: class_if(has_a(kind), class, first(pool, n)),
        b: class_if(has_b(kind), class, second(pool, n)),
        c: class_if(has_c(kind), class, third(pool, n)),
        x: low(pool, n),
        y: high(pool, n),
    }
}

// Spreads a number's bits.
fn mix(x: u64) -> u64
    ensures { (result ≡ mix_of x) × (result < 2305843009213693952) }
{
    x % 4294967296 * 227832187 + x / 4294967296 * 251658257
}

// A number below 65,536 that goes by the key. 4611686018427387904 is 2^62.
fn bucket(k: Key) -> usize
    requires { (k.a.0 < 65536) × (k.b.0 < 65536) × (k.c.0 < 65536) }
    ensures { (result ≡ bucket_of k) × (result < 65536) }
{
    let h = mix(mix(k.word) + operands_word(k.a, k.b, k.c));
    let g = mix(h + k.x % 4611686018427387904);
    (mix(g + k.y % 4611686018427387904) / 1048576 % 65536) as usize
}

fn other_mix(x: u64) -> u64
    ensures { (result ≡ other_mix_of x) × (result < 2305843009213693952) }
{
    x % 4294967296 * 198491317 + x / 4294967296 * 217645199
}

// Another number that goes by the key, by another mix of its words in another order: keys that are built to fall into one bucket part by it.
fn spread(k: Key) -> u64
    requires { (k.a.0 < 65536) × (k.b.0 < 65536) × (k.c.0 < 65536) }
    ensures { result ≡ spread_of k }
{
    let h = other_mix(other_mix(k.y) + k.x % 4611686018427387904);
    other_mix(other_mix(h + operands_word(k.a, k.b, k.c)) + k.word % 4611686018427387904)
}

// Bits of the spread and a key's words as one row of bits: those that contain `level`. 68719476736 is 2^36.
fn row(k: Key, spread: u64, level: u64) -> u64
    requires { (k.a.0 < 65536) × (k.b.0 < 65536) × (k.c.0 < 65536) × (spread ≡ spread_of k) }
    ensures { result ≡ row_of k level }
{
    if level < 24 {
        return spread / 68719476736;
    }
    if level < 88 {
        return k.x;
    }
    if level < 152 {
        return k.y;
    }
    if level < 216 {
        return operands_word(k.a, k.b, k.c);
    }
    k.word
}

// Bit `level` of the row.
fn way(k: Key, spread: u64, level: u64) -> usize
    requires { (k.a.0 < 65536) × (k.b.0 < 65536) × (k.c.0 < 65536) × (spread ≡ spread_of k) }
    ensures { (result ≡ way_of k level) × (result < 2) }
{
    ((row(k, spread, level) >> (level % 64)) % 2) as usize
}

// The slot to go on to from node m, which has another key.
fn next(k: Key, spread: u64, m: Node, level: u64) -> usize
    requires { (k.a.0 < 65536) × (k.b.0 < 65536) × (k.c.0 < 65536) × (spread ≡ spread_of k) × (m.0 < 65535) }
    ensures { (result ≡ next_of k m.0 level) × (result < 131072 + 2 * (m.0 + 1)) }
{
    if level == 0 {
        return 65536 + (spread / 1048576 % 65536) as usize;
    }
    131072 + 2 * m.0 + way(k, spread, level)
}

// The link in a slot.
fn link_at(first: &[u16; 65536], second: &[u16; 65536], ways: &[u16; 131072], slot: usize) -> usize
    requires { Laid first.now second.now ways.now × (slot < 262144) }
    ensures { (result ≡ get_or (slots_of first.now second.now ways.now) slot 0) × (result < 65536) }
{
    if slot < 65536 {
        return usize::from(first[slot]);
    }
    if slot < 131072 {
        return usize::from(second[slot - 65536]);
    }
    usize::from(ways[slot - 131072])
}

// Puts the link to node n into a slot.
fn set_link(
    first: &mut [u16; 65536],
    second: &mut [u16; 65536],
    ways: &mut [u16; 131072],
    slot: usize,
    n: Node,
)
    requires { Laid first.old second.old ways.old × (slot < 262144) × (n.0 < 65535) }
    ensures { Linked first.old second.old ways.old slot n.0 first.new second.new ways.new }
{
    let link = (n.0 + 1) as u16;
    if slot < 65536 {
        first[slot] = link;
        return;
    }
    if slot < 131072 {
        second[slot - 65536] = link;
        return;
    }
    ways[slot - 131072] = link;
}

// A link, 0 or one more than a node, and its slot.
#[derive(Clone, Copy)]
pub struct Place {
    pub link: usize,
    pub slot: usize,
}

// The node with the key of node n; link 0 if none has it, and then the slot is the one that n belongs in. No more than 281 nodes are met on
// the way, whatever the keys (`Bounded`).
fn find(
    pool: &[u64],
    class: &[u16; 65536],
    first: &[u16; 65536],
    second: &[u16; 65536],
    ways: &[u16; 131072],
    n: Node,
) -> Place
    requires valid { (Valid pool.now (n.0 + 1)) × (4 * (n.0 + 1) ≤ length pool.now) × (n.0 < 65535) × Laid first.now second.now ways.now }
    requires low { Low (slots_of first.now second.now ways.now) n.0 × Rises (slots_of first.now second.now ways.now) }
    ensures { Found pool.now class.now (slots_of first.now second.now ways.now) n.0 result }
{
    let k = key_of(pool, class, n);
    let spread = spread(k);
    let mut slot = bucket(k);
    let mut level = 0;
    let mut link = link_at(first, second, ways, slot);
    // No `for`: each turn goes on from the link that it found, and an empty slot ends it.
    while 0 < link {
        let m = Node(link - 1);
        if key_of(pool, class, m) == k {
            return Place { link, slot };
        }
        slot = next(k, spread, m, level);
        level += 1;
        link = link_at(first, second, ways, slot);
    }
    Place { link, slot }
}

// The class of node n, the nodes below it having theirs.
fn class_one(
    pool: &[u64],
    n: Node,
    class: &mut [u16; 65536],
    first: &mut [u16; 65536],
    second: &mut [u16; 65536],
    ways: &mut [u16; 131072],
)
    requires valid { (Valid pool.now (n.0 + 1)) × (4 * (n.0 + 1) ≤ length pool.now) × (n.0 < 65535) × Laid first.old second.old ways.old }
    requires kept { Kept pool.now n.0 class.old (slots_of first.old second.old ways.old) }
    ensures laid { Laid first.new second.new ways.new }
    ensures kept_2 { Kept pool.now (n.0 + 1) class.new (slots_of first.new second.new ways.new) }
{
    let at = n.0;
    let place = find(pool, class, first, second, ways, n);
    let link = place.link;
    let slot = place.slot;
    if 0 < link {
        class[at] = class[link - 1];
        return;
    }
    class[at] = at as u16;
    set_link(first, second, ways, slot, n);
}

// Fills `class` for the nodes below count: the first node with the same tree.
pub fn classes(
    pool: &[u64],
    count: usize,
    class: &mut [u16; 65536],
    first: &mut [u16; 65536],
    second: &mut [u16; 65536],
    ways: &mut [u16; 131072],
)
    requires valid { (Valid pool.now count) × (4 * count ≤ length pool.now) × (count ≤ 65535) }
    requires long { Long class.old × Laid first.old second.old ways.old }
    requires empty { Empty first.old × Empty second.old × Empty ways.old }
    ensures { Classes pool.now count class.new × Long first.new × Long second.new }
{
    for n in 0..count {
        class_one(pool, Node(n), class, first, second, ways);
    }
}
