// The records of a block in order, each with its saturation bit.
#![tactic(auto)]

ghost use Rattle.std.specs.Prelude.{◌*◌, ◌/◌, ◌<◌, length};
ghost use Rattle.neon.specs.Refusal.{AllLegal};
ghost use Rattle.pool.specs.Growth.{Room};
ghost use Rattle.block_check.specs.Records.{records_of};
ghost use Rattle.block_record.specs.Step.{MapOk};
ghost use Rattle.saturation_step.specs.Step.{flag_reserve};
ghost use Rattle.saturation_run.specs.Run.{FlagStarted, FlagRuns};

use block::start_pool;
use block_record_check::record_at;
use saturation_step::{Flagged, flag_record};

// Each on the map and the bit that the one before left.
pub fn run_flagged(pool: &mut [u64], start: Flagged, records: &[u64]) -> Flagged
    requires room { Room pool.old start.map.count (flag_reserve * (length records.now / 6)) }
    requires map_ok { MapOk start.map }
    requires bit_lt_count { start.bit.0 < start.map.count }
    requires all_legal { AllLegal (records_of records.now) }
    ensures { FlagRuns pool.old start pool.new result (records_of records.now) }
{
    let count = records.len() / 6;
    let mut at = start;
    for j in 0..count {
        let c = record_at(records, j);
        let map = at.map;
        let bit = at.bit;
        at = flag_record(
            pool,
            map,
            bit,
            c.operation,
            c.arrangement,
            c.i,
            c.d,
            c.n,
            c.m,
        );
    }
    at
}

// Nodes 0 to 31 are the registers, and node 32 is the constant 0 of one bit.
pub fn start_flagged(pool: &mut [u64]) -> Flagged
    requires { Room pool.old 0 33 }
    ensures { FlagStarted pool.old pool.new result }
{
    let map = start_pool(pool);
    let zero = pool_nodes::konst(pool, map.count, 0, 0, 1);
    let mut raised = map;
    raised.count = zero.count;
    let node = zero.node;
    Flagged {
        map: raised,
        bit: node,
    }
}
