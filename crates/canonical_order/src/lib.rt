// The nodes beneath a root in the order in which a left-first walk finishes them, each tree once (document 02, S-13).
#![tactic(auto)]

ghost use Rattle.std.specs.Prelude.{◌≡◌, ◌+◌, ◌*◌, ◌≤◌, ◌<◌, length};
ghost use Rattle.pool.specs.Rules.{Valid};
ghost use Rattle.pool_fields.specs.Fields.{op_c};
ghost use Rattle.canonical_classes.specs.Class.{Classes, Long};
ghost use Rattle.canonical_order.specs.Walk.{pick, next_open, AllNone, Walking, Stepped, Numbered};

use canonical_classes::node_at;
use pool::Node;
use pool::words::kind_of;
use pool_fields::{first, second, third};
use pool_operands::{has_a, has_b, has_c};

// m if it is an operand that has no number yet, else what was found before.
fn pick(there: bool, m: Node, number: &[u16; 65536], rest: Node) -> Node
    requires { m.0 < 65536 }
    ensures { result.0 ≡ pick there m.0 number.now rest.0 }
{
    if there & (node_at(number, m) == Node::none()) {
        return m;
    }
    rest
}

// The first operand's class of node n that has no number yet; none if each has one.
fn next_open(pool: &[u64], class: &[u16; 65536], number: &[u16; 65536], n: Node) -> Node
    requires { (4 * n.0 + 3 < length pool.now) × (op_c pool.now n.0 < 65536) }
    ensures { result.0 ≡ next_open pool.now class.now number.now n.0 }
{
    let kind = kind_of(pool, n);
    let c = pick(
        has_c(kind),
        node_at(class, third(pool, n)),
        number,
        Node::none(),
    );
    let b = pick(has_b(kind), node_at(class, second(pool, n)), number, c);
    pick(has_a(kind), node_at(class, first(pool, n)), number, b)
}

// Where the walk is: nodes with a number, nodes that wait for an operand.
#[derive(Clone, Copy)]
pub struct State {
    pub count: usize,
    pub depth: usize,
}

// One turn: the top of the stack gets its number, or an operand of it goes on the stack.
fn turn(
    pool: &[u64],
    class: &[u16; 65536],
    root: Node,
    number: &mut [u16; 65536],
    order: &mut [u16; 65536],
    stack: &mut [u16; 65536],
    s: State,
) -> State
    requires valid { (Valid pool.now (root.0 + 1)) × (4 * (root.0 + 1) ≤ length pool.now) × (root.0 < 65535) }
    requires classes { Classes pool.now (root.0 + 1) class.now }
    requires walking { Walking pool.now class.now root.0 number.old order.old s.count stack.old s.depth }
    requires depth_nonzero { 0 < s.depth }
    ensures { Stepped pool.now class.now root.0 number.old stack.old s.depth
        number.new order.new result.count stack.new result.depth }
{
    let top = s.depth - 1;
    let n = Node(usize::from(stack[top]));
    let m = next_open(pool, class, number, n);
    if m == Node::none() {
        let k = s.count;
        let at = n.0;
        number[at] = k as u16;
        order[k] = at as u16;
        return State {
            count: k + 1,
            depth: top,
        };
    }
    stack[top + 1] = m.0 as u16;
    State {
        count: s.count,
        depth: top + 2,
    }
}

// The number of distinct subtrees; `order` has a node of each, in order, and `number` each one's place.
pub fn walk(
    pool: &[u64],
    class: &[u16; 65536],
    root: Node,
    number: &mut [u16; 65536],
    order: &mut [u16; 65536],
    stack: &mut [u16; 65536],
) -> usize
    requires valid { (Valid pool.now (root.0 + 1)) × (4 * (root.0 + 1) ≤ length pool.now) × (root.0 < 65535) }
    requires classes { Classes pool.now (root.0 + 1) class.now }
    requires long { Long number.old × Long order.old × Long stack.old }
    requires all_none { AllNone number.old }
    ensures { Numbered pool.now class.now root.0 number.new order.new result }
{
    let at = root.0;
    stack[0] = class[at];
    let mut s = State { count: 0, depth: 1 };
    // No `for`: a turn makes the stack longer or shorter.
    while 0 < s.depth {
        s = turn(pool, class, root, number, order, stack, s);
    }
    s.count
}
