// A block with its saturation bit.
ghost use Rattle.block_check.specs.Records.{records_of};
ghost use Rattle.neon_terms.specs.Results.{SaturationGiven};

use block_map::RegisterMap;
use block_results::flagged_words;
use pool::Node;

// Returns the number; the map, the count, the position and the node of the bit go to `results`.
#[unsafe(no_mangle)]
pub extern "C" fn neon_lower_block_saturation(
    pool: &mut [u64],
    records: &[u64],
    results: &mut [u64; 35],
) -> u64
    ensures { SaturationGiven pool.old (records_of records.now) pool.new results.new result }
{
    match saturation_block::lower_block_saturation(pool, records) {
        Ok(end) => {
            *results = flagged_words(end.map, 0, end.bit);
            0
        }
        Err(refused) => {
            *results = flagged_words(RegisterMap::refused(), refused.position, Node::none());
            u64::from(refused.refusal)
        }
    }
}
