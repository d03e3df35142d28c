// The refusals of a block (document 01, "The numbers"), whose records come as flat numbers, six each; numbers after the last whole
// record are not read.
#![tactic(auto)]

ghost use Rattle.std.specs.Prelude.{◌≡◌};
ghost use Rattle.facts.specs.Answer.{number_of};
ghost use Rattle.neon.specs.Refusal.{records_refusal, size_number, block_refusal};
ghost use Rattle.pool.specs.Node.{places, places_in};
ghost use Rattle.block_check.specs.Records.{records_of, Refuses};

use block_record_check::{record_at, record_number};
use facts::{Refusal, RefusedAt};

// The records that a block may have.
pub const MOST_RECORDS: usize = 85;

// What comes back of a list that is read or written: 0 or a number of documents 01 and 02, the position of what is refused, and how
// many lines, words or records there are.
#[derive(Clone, Copy)]
pub struct ListAnswer {
    pub number: u64,
    pub position: usize,
    pub count: usize,
}

// The first record that is refused.
pub fn records_refusal(records: &[u64]) -> Result<(), RefusedAt>
    ensures { Refuses result (records_refusal 0 (records_of records.now)) }
{
    let count = records.len() / 6;
    for position in 0..count {
        if let Err(refusal) = record_number(record_at(records, position)) {
            return Err(RefusedAt { refusal, position });
        }
    }
    Ok(())
}

// Whether a block of so many records is refused for a pool of so many words: for its number of records, then for want of room. The
// longest block needs fewer places than a pool can have.
pub fn size_number(words: usize, count: usize) -> Result<(), Refusal>
    ensures { number_of result ≡ size_number (places_in words) count }
{
    if MOST_RECORDS < count {
        return Err(Refusal::Records);
    }
    if words / 4 < 32 + pool::Node::RESERVE * count {
        return Err(Refusal::Room);
    }
    Ok(())
}

// What refuses a block of these records for this pool: its size, else the first refused record.
pub fn block_refusal(pool: &[u64], records: &[u64]) -> Result<(), RefusedAt>
    ensures { Refuses result (block_refusal (places pool.now) (records_of records.now)) }
{
    match size_number(pool.len(), records.len() / 6) {
        Ok(()) => records_refusal(records),
        Err(refusal) => Err(RefusedAt {
            refusal,
            position: 0,
        }),
    }
}
