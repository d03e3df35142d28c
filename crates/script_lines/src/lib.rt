// The script of two registers after a routine, from text to text: everything between the reads and the writes of the program `script`.
#![tactic(auto)]

ghost use Rattle.std.specs.Prelude.{◌≡◌};
ghost use Rattle.facts.specs.Answer.{number_of, value_or};
ghost use Rattle.script_lines.specs.Output.{ScriptGiven};

use block::lower_block;
use facts::Refusal;
use line_routine::read_lines;
use script_write::write_script;

// The longest input that is read. No block of 85 records needs as much.
pub const MOST_BYTES: usize = 65536;

// The words of a pool for the longest block.
pub const POOL_WORDS: usize = 4 * (32 + pool::Node::RESERVE * block_check::MOST_RECORDS);

// 0 or a number of document 01, the position of the record that is refused, and the bytes written.
#[derive(Clone, Copy)]
pub struct Given {
    pub number: u64,
    pub position: usize,
    pub length: usize,
}

fn refused(number: u64, position: usize) -> Given
    ensures { (result.number ≡ number) × (result.position ≡ position) × (result.length ≡ 0) }
{
    Given {
        number,
        position,
        length: 0,
    }
}

// The answer for a script: its length, or the number of its refusal.
fn written(script: Result<usize, Refusal>) -> Given
    ensures { (result.number ≡ number_of script) × (result.position ≡ 0) × (result.length ≡ value_or 0 script) }
{
    match script {
        Ok(length) => Given {
            number: 0,
            position: 0,
            length,
        },
        Err(refusal) => refused(u64::from(refusal), 0),
    }
}

// Lowers a routine in the lent pool and writes the script that asks whether registers a and b can differ after it, with the lent buffer. A
// refusal writes nothing to either; one by 9 leaves the pool of the block.
pub fn script_text(input: &[u8], a: u64, b: u64, pool: &mut [u64], out: &mut [u8]) -> Given
    ensures { ScriptGiven input.now a b pool.old out.old result pool.new out.new }
{
    if (31 < a) | (31 < b) {
        return refused(7, 0);
    }
    if MOST_BYTES < input.len() {
        return refused(8, 0);
    }
    let mut records = [0u64; 510];
    let read = read_lines(input, &mut records);
    if 0 < read.number {
        return refused(read.number, read.position);
    }
    let end = 6 * read.count;
    let map = match lower_block(pool, &records[..end]) {
        Ok(map) => map,
        Err(found) => return refused(u64::from(found.refusal), found.position),
    };
    let x = map.get(a);
    let y = map.get(b);
    written(write_script(pool, map.count, x.0, y.0, out))
}
