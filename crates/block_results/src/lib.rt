// The words in which a block's answer is given to C and Rust.
#![tactic(auto)]

ghost use Rattle.std.specs.Prelude.{◌≡◌};
ghost use Rattle.block_results.specs.Words.{answer_words, flagged_words};

use block_map::RegisterMap;
use pool::Node;

// The nodes of the 32 registers, the count and the position.
pub fn answer_words(map: RegisterMap, position: usize) -> [u64; 34]
    ensures { result ≡ answer_words map position }
{
    let mut words = [0u64; 34];
    for r in 0..32 {
        let node = map.get(r as u64);
        words[r] = node.0 as u64;
    }
    words[32] = map.count as u64;
    words[33] = position as u64;
    words
}

// The same, and the node of the block's saturation bit.
pub fn flagged_words(map: RegisterMap, position: usize, bit: Node) -> [u64; 35]
    ensures { result ≡ flagged_words map position bit.0 }
{
    let mut words = [bit.0 as u64; 35];
    words[..34].copy_from_slice(&answer_words(map, position));
    words
}
