// The refusals of a block that comes as a list of records. block_record_check has the test of one record.
#![tactic(auto)]

ghost use Rattle.neon.specs.Refusal.{block_refusal};
ghost use Rattle.pool.specs.Node.{places_in};
ghost use Rattle.block_check.specs.Records.{Refuses};

use facts::RefusedAt;
use neon::Instruction;

// What refuses a block of these records for a pool of so many words.
pub fn block_refusal(words: usize, records: &[Instruction]) -> Result<(), RefusedAt>
    ensures { Refuses result (block_refusal (places_in words) records.now) }
{
    if let Err(refusal) = block_check::size_number(words, records.len()) {
        return Err(RefusedAt {
            refusal,
            position: 0,
        });
    }
    for (position, record) in records.iter().enumerate() {
        if let Err(refusal) = block_record_check::record_number(*record) {
            return Err(RefusedAt { refusal, position });
        }
    }
    Ok(())
}
