// A block on the device's numbers.
ghost use Rattle.std.specs.Prelude.{◌≡◌};
ghost use Rattle.terms.specs.Value.{bit};
ghost use Rattle.block_check.specs.Records.{records_of};
ghost use Rattle.neon_terms.specs.Results.{RunGiven};

use run_block::Registers;

fn word(b: bool) -> u64
    ensures { result ≡ bit b }
{
    if b {
        return 1;
    }
    0
}

// Returns the number; the registers are run in place, and stay where a record is refused; the position and whether a lane saturated go to
// `results`.
#[unsafe(no_mangle)]
pub extern "C" fn neon_run_block(
    registers: &mut [u64; 64],
    records: &[u64],
    results: &mut [u64; 2],
) -> u64
    ensures { RunGiven registers.old (records_of records.now) registers.new results.new result }
{
    let words = *registers;
    let answer = run_block::run(Registers { words }, records);
    let after = answer.registers;
    let new = after.words;
    *registers = new;
    let saturated = word(answer.saturated);
    *results = [answer.position as u64, saturated];
    answer.number
}
