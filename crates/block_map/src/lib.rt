// The map of a block (document 01, "Pool"): the node of each of the 32 registers, and the count of the pool's nodes.
#![tactic(auto)]

ghost use Rattle.std.specs.Prelude.{◌≡◌, ◌<◌};
ghost use Rattle.block_map.specs.Map.{node_of, first_map, no_map, written};

use pool::Node;
use std::array;

#[derive(Clone, Copy)]
pub struct RegisterMap {
    pub nodes: [Node; 32],
    pub count: usize,
}

impl RegisterMap {
    // Node r for register r.
    pub fn initial() -> Self
        ensures { result ≡ first_map }
    {
        Self {
            nodes: array::from_fn(Node),
            count: 32,
        }
    }

    // The map of a block that is refused.
    pub fn refused() -> Self
        ensures { result ≡ no_map }
    {
        Self {
            nodes: [Node::none(); 32],
            count: 0,
        }
    }

    pub fn get(self, r: u64) -> Node
        requires { r < 32 }
        ensures { result.0 ≡ node_of self r }
    {
        let at = r as usize;
        self.nodes[at]
    }

    pub fn set(self, r: u64, node: Node, count: usize) -> Self
        requires { r < 32 }
        ensures { result ≡ written self r node.0 count }
    {
        let at = r as usize;
        let mut m = self;
        m.nodes[at] = node;
        m.count = count;
        m
    }
}
