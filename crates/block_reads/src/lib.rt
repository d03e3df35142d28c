// How a record of a block reads a register, and how its result becomes one (document 01, "Pool").
#![tactic(auto)]

ghost use Rattle.std.specs.Prelude.{[], ◌∷◌, ◌<◌};
ghost use Rattle.neon.specs.Op.{bits_if};
ghost use Rattle.trees.specs.Block.{widen_tree};
ghost use Rattle.pool.specs.Growth.{Room};
ghost use Rattle.lower.specs.Builds.{Builds1};
ghost use Rattle.block_reads.specs.Reads.{Reads};

use pool::{Bit, Built, Node};

// A register as it is read: its own node, or the low half of it; no node if it is not used.
pub fn read_if(pool: &mut [u64], count: usize, used: bool, whole: bool, register: Node) -> Built
    requires room { Room pool.old count 1 }
    requires register_lt_count { register.0 < count }
    ensures { Reads pool.old count pool.new result used whole register }
{
    if !used {
        return Built {
            node: Node::none(),
            count,
        };
    }
    if whole {
        return Built {
            node: register,
            count,
        };
    }
    lower_simd::extract_collapsing(pool, count, register, Bit(63), Bit(0))
}

// A result of 64 bits is widened to a register's 128.
pub fn widen(pool: &mut [u64], count: usize, whole: bool, res: Node) -> Built
    requires room { Room pool.old count 1 }
    requires res_lt_count { res.0 < count }
    ensures { Builds1 pool.old count pool.new result 1 res (bits_if whole) 128 (widen_tree whole) (res.0 ∷ []) }
{
    if whole {
        return Built { node: res, count };
    }
    pool_nodes::zero_ext(pool, count, res, 128)
}
