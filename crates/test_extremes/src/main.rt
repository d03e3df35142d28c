// The texts of chains of 65,535 nodes, each in buffers of 0 and 1 byte, of just enough, of one less, of 65,536 bytes and
// of 1 MB. It runs on a stack of 8 MB: the deepest text takes 4.2 MB as LLVM builds it, and 5 MB as Rattle's own compiler does.
// A chain is a line on standard input, of eight numbers in columns: how many nodes are left out at the end; 1 if
// nodes 1 and 2 are a condition and a register; then kind, width and operands of the nodes of even number, and of
// those of odd number. `tests/programs/extremes` makes the lines and what is to be written.
#![tactic(auto)]

ghost use Rattle.std.specs.Prelude.{◌<◌};

use line_columns::field;
use pool::words::{Kind, kind_word, operands_word};
use pool::{Node, push};
use std::io;

const NODES: usize = 65535;

// Word 1 of a node, by a number for the operands that are the node before it: 0 for A, 1 for B, 2 for both; 3 for B
// and 4 for C, if A is node 1; 5 for A, if B is node 1. The others are node 0.
fn operands(which: u64, last: Node) -> u64
    requires { last.0 < 65536 }
{
    match which {
        0 => operands_word(last, Node(0), Node(0)),
        1 => operands_word(Node(0), last, Node(0)),
        2 => operands_word(last, last, Node(0)),
        3 => operands_word(Node(1), last, Node(0)),
        4 => operands_word(Node(1), Node(0), last),
        _ => operands_word(last, Node(1), Node(0)),
    }
}

// Writes node n. An Extract has lo 0, and hi by its width.
fn put_node(pool: &mut [u64; 262140], n: Node, kind: u64, width: u64, word: u64)
    requires { (n.0 < 65535) × (kind < 10000) × (width < 10000) }
{
    // every node of a chain is over v0
    let w0 = kind_word(kind, width, 1);
    let hi = if kind == Kind::EXTRACT {
        width.saturating_sub(1)
    } else {
        0
    };
    push(&mut pool[..], n.0, w0, word, hi, 0);
}

fn build(pool: &mut [u64; 262140], case: &[u8]) {
    if case.len() < 32 {
        return;
    }
    put_node(pool, Node(0), Kind::VAR, 128, 0);
    for n in 1..NODES {
        let at = 8 + n % 2 * 12;
        let word = operands(field(case, at + 8), Node(n - 1));
        put_node(pool, Node(n), field(case, at), field(case, at + 4), word);
    }
    if field(case, 4) == 1 {
        put_node(pool, Node(1), Kind::EQ, 0, 0);
        put_node(pool, Node(2), Kind::VAR, 128, 0);
    }
}

// Adler-32 of a buffer.
fn sum(buffer: &[u8]) -> u64 {
    let mut a = 1;
    let mut b = 0;
    for byte in buffer {
        a = (a + u64::from(*byte)) % 65521;
        b = (b + a) % 65521;
    }
    b * 65536 + a
}

fn print(rt: &impl Print, x: u64, end: &str) -> io::Result<()> {
    print!(rt; "{x}{end}")
}

// One buffer: its bytes, the number, the length, and a sum over all of it.
fn attempt(rt: &impl Print, pool: &[u64], node: Node, buffer: &mut [u8]) -> io::Result<()> {
    buffer.fill(b'.');
    let (number, length) = match text::write_text(pool, NODES, node.0, buffer) {
        Ok(length) => (0, length),
        Err(refusal) => (u64::from(refusal), 0),
    };
    println!(rt; "{} {number} {length} {}", buffer.len(), sum(buffer))
}

// The bytes of a buffer, for a text of so many.
fn size(i: usize, exact: usize) -> usize {
    match i {
        0 => 0,
        1 => 1,
        2 => exact,
        3 => exact.saturating_sub(1),
        4 => 65536,
        _ => 1048576,
    }
}

fn sized(rt: &impl Print, pool: &[u64], node: Node, buffer: &mut [u8], n: usize) -> io::Result<()> {
    if n <= buffer.len() {
        attempt(rt, pool, node, &mut buffer[..n])?;
    }
    Ok(())
}

// A chain in each buffer that there is room for.
fn buffers(rt: &impl Print, pool: &[u64], node: Node, buffer: &mut [u8]) -> io::Result<()> {
    let exact = text_length::text_length(pool, NODES, node.0, 1441792).unwrap_or(0) as usize;
    for i in 0..6 {
        sized(rt, pool, node, buffer, size(i, exact))?;
    }
    Ok(())
}

// The last node of a chain.
fn last(case: &[u8]) -> Node {
    if case.len() < 4 {
        return Node(0);
    }
    Node(NODES - 1 - (field(case, 0) as usize))
}

// One chain, if the input has one more.
fn turn(
    rt: &(impl Input + Print),
    pool: &mut [u64; 262140],
    buffer: &mut [u8; 1441792],
) -> io::Result<bool> {
    let mut case = [0u8; 33];
    if line_input::fill(&mut rt.reader(), &mut case, 0).end < 33 {
        return Ok(false);
    }
    rt.write_all(&case)?;
    build(pool, &case);
    buffers(rt, &pool[..], last(&case), &mut buffer[..])?;
    Ok(true)
}

fn main(rt: HostRuntime) -> io::Result<()> {
    let mut words = vec![in rt.alloc(); 0u64; 262140]?;
    let mut bytes = vec![in rt.alloc(); 0u8; 1441792]?;
    let pool = words.as_mut_slice().as_mut_array().unwrap();
    let buffer = bytes.as_mut_slice().as_mut_array().unwrap();
    // at most so many chains, so that the loop ends
    for _ in 0..1000 {
        if !turn(&rt, pool, buffer)? {
            break;
        }
    }
    Ok(())
}
