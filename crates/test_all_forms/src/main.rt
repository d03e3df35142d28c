// Lowers each case of the list on standard input, and writes its number with the length and the hash of its text.
// A case has eight columns of five digits: places, count, operation, arrangement, i, d, n, m. A blank or a
// newline ends each. Last comes the greatest number of nodes that a case added. `tests/programs/all_forms` makes the list
// and what is to be written.
#![tactic(auto)]

ghost use Rattle.std.specs.Prelude.{◌≡◌, ◌<◌, ◌≤◌, length, take};

use pool::{Bit, Built, Node};
use std::io;

// Whether the input had one more case, and the nodes that it added.
#[derive(Clone, Copy)]
struct Turn {
    more: bool,
    added: usize,
}

// Column k. A blank in front of the digits counts as 0, for the low half of its byte is 0.
fn column(case: &[u8; 48], k: usize) -> u64
    requires { k < 8 }
{
    let mut value = 0;
    for j in 0..5 {
        value = value % 10000 * 10 + u64::from(case[6 * k + j] % 16);
    }
    value
}

// The low 64 bits of x times the prime of 64-bit FNV-1a, which is 2^40 + 435.
fn times_prime(x: u64) -> u64 {
    let low = x % 4294967296 * 435;
    let high = x / 4294967296 * 435 % 4294967296 * 4294967296;
    let top = x % 16777216 * 1099511627776;
    top.wrapping_add(low.wrapping_add(high))
}

// 64-bit FNV-1a of the first bytes of a buffer.
fn hash(text: &[u8], n: usize) -> u64 {
    if text.len() < n {
        return 0;
    }
    text[..n].iter().fold(
        14695981039346656037,
        |h, byte| times_prime(h ^ u64::from(*byte)),
    )
}

// The registers at their own numbers, then the low halves of v0, v1 and v2 as nodes 32, 33 and 34.
fn registers(pool: &mut [u64])
    requires { 140 ≤ length pool.old }
    ensures { length pool.new ≡ length pool.old }
{
    for r in 0..32 {
        pool_nodes::var(pool, r, r as u64);
    }
    pool_nodes::extract(pool, 32, Node(0), Bit(63), Bit(0));
    pool_nodes::extract(pool, 33, Node(1), Bit(63), Bit(0));
    pool_nodes::extract(pool, 34, Node(2), Bit(63), Bit(0));
}

// 0, and the length and the hash of a text, each in a write of its own.
fn show(rt: &impl Print, pool: &[u64], lowered: Built) -> io::Result<()> {
    print!(rt; "0 ")?;
    let node = lowered.node.0;
    let asked = text_length::text_length(pool, lowered.count, node, 65536);
    let mut text = [0u8; 65536];
    let written = text::write_text(pool, lowered.count, node, &mut text);
    print!(rt; "{} ", asked.unwrap_or(0))?;
    println!(rt; "{:016x}", hash(&text, written.unwrap_or(0)))
}

// The words of so many places, or of as many as there are.
fn words_of(pool: &[u64], places: u64) -> usize
    ensures { (result ≤ length pool.now) × (result ≡ length (take result pool.now)) }
{
    if places < 65536 {
        let words = 4 * (places as usize);
        if words < pool.len() {
            return words;
        }
    }
    pool.len()
}

// The registers, the low halves of three of them, and what one instruction may add.
const POOL_WORDS: usize = 4 * (35 + pool::Node::RESERVE);

// One case in a pool of its own: its number, and the text or the node and the count. The nodes added.
fn run(rt: &impl Print, case: &[u8; 48]) -> io::Result<usize> {
    let mut words = [0u64; POOL_WORDS];
    registers(&mut words);
    let count = column(case, 1) as usize;
    let end = words_of(&words, column(case, 0));
    let pool = &mut words[..end];
    let lowered = instruction::lower_instruction(
        pool,
        count,
        column(case, 2),
        column(case, 3),
        column(case, 4),
        column(case, 5) as usize,
        column(case, 6) as usize,
        column(case, 7) as usize,
    );
    match lowered {
        Ok(built) => {
            show(rt, pool, built)?;
            if built.count < count {
                return Ok(0);
            }
            Ok(built.count - count)
        }
        Err(refusal) => {
            print!(rt; "{} ", u64::from(refusal))?;
            print!(rt; "{} ", Node::NONE)?;
            println!(rt; "{count}")?;
            Ok(0)
        }
    }
}

fn next(rt: &(impl Input + Print)) -> io::Result<Turn> {
    let mut case = [0u8; 48];
    if line_input::fill(&mut rt.reader(), &mut case, 0).end < 48 {
        return Ok(Turn {
            more: false,
            added: 0,
        });
    }
    Ok(Turn {
        more: true,
        added: run(rt, &case)?,
    })
}

fn main(rt: HostRuntime) -> io::Result<()> {
    let mut most = 0;
    // a loop has to end: no list of cases is as long as this
    for _ in 0..100000 {
        let t = next(&rt)?;
        if !t.more {
            break;
        }
        most = most.max(t.added);
    }
    print!(rt; "most nodes added ")?;
    println!(rt; "{most}")
}
