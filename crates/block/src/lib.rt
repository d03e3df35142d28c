// A block of records, lowered into a new pool (document 01, "Pool"). The Rust has no counterpart: it lowers one instruction at a time.
#![tactic(auto)]

ghost use Rattle.std.specs.Prelude.{◌≡◌, ◌*◌, ◌/◌, length};
ghost use Rattle.neon.specs.Refusal.{reserve, AllLegal};
ghost use Rattle.pool.specs.Growth.{Room};
ghost use Rattle.block_map.specs.Map.{first_map};
ghost use Rattle.block_check.specs.Records.{records_of};
ghost use Rattle.block_record.specs.Step.{MapOk};
ghost use Rattle.block.specs.Block.{Started, Runs, Answered, answer_of};

use block_map::RegisterMap;
use block_record::lower_record;
use block_record_check::record_at;
use facts::RefusedAt;

// Nodes 0 to 31 are the registers, and so the map says.
pub fn start_pool(pool: &mut [u64]) -> RegisterMap
    requires { Room pool.old 0 32 }
    ensures { Started pool.old pool.new 32 × (result ≡ first_map) }
{
    for r in 0..32 {
        pool_nodes::var(pool, r, r as u64);
    }
    RegisterMap::initial()
}

// The records in order, each on the map that the one before left.
fn run_records(pool: &mut [u64], start: RegisterMap, records: &[u64]) -> RegisterMap
    requires room { Room pool.old start.count (reserve * (length records.now / 6)) }
    requires map_ok { MapOk start }
    requires all_legal { AllLegal (records_of records.now) }
    ensures { Runs pool.old start pool.new result (records_of records.now) }
{
    let count = records.len() / 6;
    let mut map = start;
    for j in 0..count {
        let c = record_at(records, j);
        map = lower_record(pool, map, c.operation, c.arrangement, c.i, c.d, c.n, c.m);
    }
    map
}

// Six numbers a record: operation, arrangement, i, d, n, m; numbers after the last whole record are not read. The answer is the map
// of the registers. A block with one refused record is refused whole, and then the pool is as it was.
pub fn lower_block(pool: &mut [u64], records: &[u64]) -> Result<RegisterMap, RefusedAt>
    ensures { Answered pool.old (records_of records.now) pool.new (answer_of result) }
{
    block_check::block_refusal(pool, records)?;
    let start = start_pool(pool);
    Ok(run_records(pool, start, records))
}
