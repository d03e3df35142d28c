// The line program: reads standard input to its end, and writes an answer for each line.
// It only reads and writes: what is written for the bytes that are read is the library's, `line_run`. At the first read or write that
// fails it says so on standard error and stops.
#![tactic(auto)]

ghost use Rattle.std.specs.Prelude.{◌≤◌, length};
ghost use Rattle.line.specs.Output.{Rooms};

use line_input::say_failure;
use std::io::Read;

// Between two reads: the bytes held of a line whose end is still to come, and whether there is more to read.
#[derive(Clone, Copy)]
struct Waiting {
    line: usize,
    more: bool,
}

// Writes the first bytes of the output. Whether they are written; if not, it is said.
fn write(rt: &(impl Print + Eprint + AllocGlobal), out: &[u8], end: usize) -> bool
    requires { end ≤ length out.now }
{
    match rt.write_all(&out[..end]) {
        Ok(()) => true,
        Err(error) => {
            say_failure(rt, "lanes: standard output", error);
            false
        }
    }
}

// Answers the lines that end in a piece of the input.
fn consume(
    rt: &(impl Print + Eprint + AllocGlobal),
    pool: &mut [u64],
    held: &mut [u8],
    line: usize,
    piece: &[u8],
    out: &mut [u8],
) -> Waiting
    requires rooms { Rooms pool.old held.old out.old }
    requires line_in_bounds { line ≤ length held.old }
    ensures { result.line ≤ length held.new }
{
    let mut len = line;
    let mut from = 0;
    // No `for`: the next place is the one up to which lines were answered.
    while from < piece.len() {
        let p = line_run::answer_lines(pool, held, len, piece, from, out);
        len = p.line;
        from = p.taken;
        if !write(rt, out, p.output) {
            return Waiting {
                line: len,
                more: false,
            };
        }
    }
    Waiting {
        line: len,
        more: true,
    }
}

// Reads a piece of the input and answers it. At the input's end a last line is answered that no newline ends; after a failure it is not.
fn turn(
    rt: &(impl Input + Print + Eprint + AllocGlobal),
    pool: &mut [u64],
    held: &mut [u8],
    line: usize,
    input: &mut [u8],
    out: &mut [u8],
) -> Waiting
    requires rooms { Rooms pool.old held.old out.old }
    requires line_in_bounds { line ≤ length held.old }
    ensures { result.line ≤ length held.new }
{
    match rt.reader().read(input) {
        Ok(0) => {
            let end = line_run::answer_last(pool, held, line, out);
            write(rt, out, end);
            Waiting { line, more: false }
        }
        Ok(n) => consume(rt, pool, held, line, &input[..n], out),
        Err(error) => {
            say_failure(rt, "lanes: standard input", error);
            Waiting { line, more: false }
        }
    }
}

// A proved loop has to end, and nothing says that the input does: the turns are counted to a number that no run uses up.
fn run(
    rt: &(impl Input + Print + Eprint + AllocGlobal),
    pool: &mut [u64],
    held: &mut [u8],
    input: &mut [u8],
    out: &mut [u8],
)
    requires { Rooms pool.old held.old out.old }
{
    let mut line = 0;
    for _ in 0..u64::MAX {
        let w = turn(rt, pool, held, line, input, out);
        if !w.more {
            return;
        }
        line = w.line;
    }
}

fn main(rt: HostRuntime) {
    let mut pool = [0u64; line::POOL_WORDS];
    let mut held = [0u8; line::LINE_ROOM];
    let mut input = [0u8; 65536];
    let mut out = [0u8; 131072];
    run(&rt, &mut pool, &mut held, &mut input, &mut out);
}
