// A block as a list of records, on a map of the registers that the caller lends (document 01, "The forms we expect"). These
// functions only take records apart: block_check, block_record and block do the work, and serve callers that have flat numbers.
// The Rust has no counterpart: it lowers one instruction at a time.
#![tactic(auto)]

ghost use Rattle.std.specs.Prelude.{◌*◌, length};
ghost use Rattle.neon.specs.Refusal.{reserve, Legal, AllLegal};
ghost use Rattle.pool.specs.Growth.{Room};
ghost use Rattle.block_record_check.specs.Record.{instruction};
ghost use Rattle.block_record.specs.Step.{MapOk, Steps};
ghost use Rattle.block.specs.Block.{Runs, Answered};
ghost use Rattle.block_list.specs.Lent.{answer};

use block_list_check::block_refusal;
use block_map::RegisterMap;
use facts::RefusedAt;
use neon::Instruction;

// An accepted record brings the map up to date, and its nodes are added to the pool.
fn lower_record_in(
    pool: &mut [u64],
    map: &mut RegisterMap,
    operation: u64,
    arrangement: u64,
    i: u64,
    d: u64,
    n: u64,
    m: u64,
)
    requires room { Room pool.old map.old.count reserve }
    requires map_ok { MapOk map.old }
    requires legal { Legal (instruction operation arrangement i d n m) }
    ensures { Steps pool.old map.old pool.new map.new (instruction operation arrangement i d n m) }
{
    *map = block_record::lower_record(pool, *map, operation, arrangement, i, d, n, m);
}

// The records in order, each on the map that the one before left.
fn run_instructions(pool: &mut [u64], records: &[Instruction], map: &mut RegisterMap)
    requires room { Room pool.old map.old.count (reserve * length records.now) }
    requires map_ok { MapOk map.old }
    requires all_legal { AllLegal records.now }
    ensures { Runs pool.old map.old pool.new map.new records.now }
{
    for r in records {
        lower_record_in(pool, map, r.operation, r.arrangement, r.i, r.d, r.n, r.m);
    }
}

// A block with one refused record is refused whole: then the pool is as it was, and no register has a node.
pub fn lower_instructions(
    pool: &mut [u64],
    records: &[Instruction],
    map: &mut RegisterMap,
) -> Result<(), RefusedAt>
    ensures { Answered pool.old records.now pool.new (answer result map.new) }
{
    if let Err(refused) = block_refusal(pool.len(), records) {
        *map = RegisterMap::refused();
        return Err(refused);
    }
    *map = block::start_pool(pool);
    run_instructions(pool, records, map);
    Ok(())
}
