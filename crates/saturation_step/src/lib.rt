// One record of a block with its saturation bit: first the bit over the registers before it, then the record as in every block.
#![tactic(auto)]

ghost use Rattle.std.specs.Prelude.{◌<◌};
ghost use Rattle.neon.specs.Refusal.{Legal};
ghost use Rattle.pool.specs.Growth.{Room};
ghost use Rattle.block_record_check.specs.Record.{instruction};
ghost use Rattle.block_record.specs.Step.{MapOk};
ghost use Rattle.saturation_step.specs.Step.{flag_reserve, Flags};

use block_map::RegisterMap;
use block_record::lower_record;
use pool::Node;
use saturation_record::record_bit;

// The map of the registers, and the block's bit.
#[derive(Clone, Copy)]
pub struct Flagged {
    pub map: RegisterMap,
    pub bit: Node,
}

pub fn flag_record(
    pool: &mut [u64],
    map: RegisterMap,
    bit: Node,
    operation: u64,
    arrangement: u64,
    i: u64,
    d: u64,
    n: u64,
    m: u64,
) -> Flagged
    requires room { Room pool.old map.count flag_reserve }
    requires map_ok { MapOk map }
    requires bit_lt_count { bit.0 < map.count }
    requires legal { Legal (instruction operation arrangement i d n m) }
    ensures { Flags pool.old map bit pool.new result (instruction operation arrangement i d n m) }
{
    let old = map.get(d);
    let first = map.get(n);
    let second = map.get(m);
    let flag = record_bit(
        pool,
        map.count,
        operation,
        arrangement,
        i,
        old,
        first,
        second,
        bit,
    );
    let mut raised = map;
    raised.count = flag.count;
    let node = flag.node;
    let after = lower_record(pool, raised, operation, arrangement, i, d, n, m);
    Flagged {
        map: after,
        bit: node,
    }
}
