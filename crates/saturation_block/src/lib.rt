// A block with its saturation bit (document 02, S-12): the terms of the registers as `block` makes them, and beside them a term of one bit,
// 1 exactly where some lane of some instruction saturates. The Rust has no such term.
#![tactic(auto)]

ghost use Rattle.std.specs.Prelude.{◌≡◌};
ghost use Rattle.facts.specs.Answer.{number_of};
ghost use Rattle.pool.specs.Node.{places, places_in};
ghost use Rattle.block_check.specs.Records.{records_of, Refuses};
ghost use Rattle.saturation_block.specs.Size.{flag_size, flag_refusal};
ghost use Rattle.saturation_block.specs.Block.{Answered, answer_of};

use block_check::records_refusal;
use facts::{Refusal, RefusedAt};
use saturation_run::{run_flagged, start_flagged};
use saturation_step::Flagged;

// The records that such a block may have, and the nodes that one of them may add.
const MOST_SATURATION_RECORDS: usize = 31;

const SATURATION_RESERVE: usize = 2_048;

// Whether a block of so many records is refused for a pool of so many words. The constant 0 takes one place.
fn size_number(words: usize, count: usize) -> Result<(), Refusal>
    ensures { number_of result ≡ flag_size (places_in words) count }
{
    if MOST_SATURATION_RECORDS < count {
        return Err(Refusal::Records);
    }
    if words / 4 < 32 + SATURATION_RESERVE * count + 1 {
        return Err(Refusal::Room);
    }
    Ok(())
}

// What refuses a block of these records for this pool: its size, else the first refused record.
fn refusal(pool: &[u64], records: &[u64]) -> Result<(), RefusedAt>
    ensures { Refuses result (flag_refusal (places pool.now) (records_of records.now)) }
{
    match size_number(pool.len(), records.len() / 6) {
        Ok(()) => records_refusal(records),
        Err(refusal) => Err(RefusedAt {
            refusal,
            position: 0,
        }),
    }
}

// The records as `block::lower_block` takes them; the answer is the map of the registers and the bit. A block with one refused record is
// refused whole, and then the pool is as it was.
pub fn lower_block_saturation(pool: &mut [u64], records: &[u64]) -> Result<Flagged, RefusedAt>
    ensures { Answered pool.old (records_of records.now) pool.new (answer_of result) }
{
    refusal(pool, records)?;
    let start = start_flagged(pool);
    let end = run_flagged(pool, start, records);
    Ok(end)
}
