// The public operations for C and Rust to link, by `rt lib` in this folder; include/neon_terms.h declares them. A slice is a
// pointer and a length. No call requires anything of its numbers: what it cannot do it refuses by number.
#![tactic(auto)]

mod answers;
mod lines;
mod pools;
mod questions;
mod run;
mod saturated;
mod solvers;
mod value;
mod version;
mod words;

ghost use Rattle.std.specs.Prelude.{◌≡◌};
ghost use Rattle.neon.specs.Form.{form_code_at};
ghost use Rattle.pool.specs.Rules.{pool_ok};
ghost use Rattle.text.specs.Answer.{Answered as TextAnswered};
ghost use Rattle.text_length.specs.Answer.{Measured};
ghost use Rattle.pool_registers.specs.Answer.{Named};
ghost use Rattle.instruction.specs.Lowering.{Answers};
ghost use Rattle.block_check.specs.Records.{records_of};
ghost use Rattle.neon_terms.specs.Results.{BlockGiven};

use answers::give;
use block_map::RegisterMap;
use block_results::answer_words;
use pool::Node;

// The form code of crate `neon`: what an operation reads at an arrangement, and 0 if there is no such form.
#[unsafe(no_mangle)]
pub extern "C" fn neon_form_code(operation: u64, arrangement: u64) -> u64
    ensures { result ≡ form_code_at operation arrangement }
{
    neon::form_code(operation, arrangement)
}

#[unsafe(no_mangle)]
pub extern "C" fn neon_pool_check(pool: &[u64], count: usize) -> bool
    ensures { result ≡ pool_ok pool.now count }
{
    pool_check::pool_check(pool, count)
}

// Returns the number; the node and the count after it go to `node` and `after`.
#[unsafe(no_mangle)]
pub extern "C" fn neon_lower_instruction(
    pool: &mut [u64],
    count: usize,
    operation: u64,
    arrangement: u64,
    i: u64,
    d: usize,
    n: usize,
    m: usize,
    node: &mut usize,
    after: &mut usize,
) -> u64
    ensures { Answers pool.old count pool.new (record { number = result; node = node.new; count = after.new }) operation arrangement i d n m }
{
    match instruction::lower_instruction(pool, count, operation, arrangement, i, d, n, m) {
        Ok(built) => {
            *node = built.node.0;
            *after = built.count;
            0
        }
        Err(refusal) => {
            *node = Node::NONE;
            *after = count;
            u64::from(refusal)
        }
    }
}

// Returns the number; the map, the count and the position go to `results`.
#[unsafe(no_mangle)]
pub extern "C" fn neon_lower_block(
    pool: &mut [u64],
    records: &[u64],
    results: &mut [u64; 34],
) -> u64
    ensures { BlockGiven pool.old (records_of records.now) pool.new results.new result }
{
    match block::lower_block(pool, records) {
        Ok(map) => {
            *results = answer_words(map, 0);
            0
        }
        Err(refused) => {
            *results = answer_words(RegisterMap::refused(), refused.position);
            u64::from(refused.refusal)
        }
    }
}

// Returns the number; the length goes to `length`.
#[unsafe(no_mangle)]
pub extern "C" fn neon_write_text(
    pool: &[u64],
    count: usize,
    node: usize,
    buffer: &mut [u8],
    length: &mut usize,
) -> u64
    ensures { TextAnswered pool.now count node buffer.old result length.new buffer.new }
{
    give(text::write_text(pool, count, node, buffer), 0, length)
}

// Returns the number; the length goes to `length`.
#[unsafe(no_mangle)]
pub extern "C" fn neon_text_length(
    pool: &[u64],
    count: usize,
    node: usize,
    ceiling: u32,
    length: &mut u64,
) -> u64
    ensures { Measured pool.now count node ceiling result length.new }
{
    give(
        text_length::text_length(pool, count, node, ceiling),
        0,
        length,
    )
}

// Returns the number; the registers beneath the node go to `set`, bit r for register r.
#[unsafe(no_mangle)]
pub extern "C" fn neon_registers_of(pool: &[u64], count: usize, node: usize, set: &mut u64) -> u64
    ensures { Named pool.now count node result set.new }
{
    give(pool_registers::registers_of(pool, count, node), 0, set)
}
