// The script that asks whether two registers can differ after a routine: `script A B` takes the routine, in columns, from standard input,
// and writes to standard output. It only reads and writes: what is written for the bytes that are read is the library's, `script_lines`. A
// refusal is said on standard error, and so is the first read or write that fails.
#![tactic(auto)]

ghost use Rattle.std.specs.Prelude.{◌≤◌, length};

use line_input::{fill, say_failure};
use std::env::{Env, FillError};

// Room for the scripts of such pools, and little enough for a stack of 8 MB with the pool.
const SCRIPT_BYTES: usize = 5242880;

// The digit that a character shows; 10 for another.
fn digit(b: u8) -> u64
    ensures { result ≤ 10 }
{
    match b {
        b'0' => 0,
        b'1' => 1,
        b'2' => 2,
        b'3' => 3,
        b'4' => 4,
        b'5' => 5,
        b'6' => 6,
        b'7' => 7,
        b'8' => 8,
        b'9' => 9,
        _ => 10,
    }
}

// The number of one digit, or of two of which the first is not 0; 32 for another text.
fn number(name: &[u8]) -> u64 {
    if name.len() == 1 {
        let d = digit(name[0]);
        return if d < 10 { d } else { 32 };
    }
    if name.len() == 2 {
        let t = digit(name[0]);
        let d = digit(name[1]);
        return if (0 < t) & (t < 10) & (d < 10) {
            10 * t + d
        } else {
            32
        };
    }
    32
}

// The register that argument i names, as 7 or v7; 32 for none.
fn register(rt: &impl Env, i: usize) -> u64 {
    let mut name = [0u8; 4096];
    let Ok(n) = rt.arg(i, &mut name) else {
        return 32;
    };
    if n == 0 {
        return 32;
    }
    let text = &name[..n];
    if text[0] == b'v' {
        return number(&text[1..]);
    }
    number(text)
}

// Whether there is an argument of this number; the first has number 1.
fn has_argument(rt: &impl Env, number: usize) -> bool {
    !matches!(rt.arg(number, &mut []), Err(FillError::NotPresent))
}

// The word of a number, as README has it.
fn say_word(rt: &impl Eprint, number: u64) {
    let word = match number {
        2 => "no such operation",
        3 => "no such form",
        4 => "immediate",
        7 => "register",
        8 => "long block",
        9 => "short buffer",
        _ => "line not in columns",
    };
    let _ = eprintln!(rt; "{word}");
}

// What refuses a line or a record of the routine; its length and the script's are of no record.
fn say(rt: &impl Eprint, number: u64, position: u64) {
    let _ = if (number == 8) | (number == 9) {
        eprint!(rt; "script: {number}, ")
    } else {
        eprint!(rt; "script: record {position}: {number}, ")
    };
    say_word(rt, number);
}

fn write(rt: &(impl Print + Eprint + AllocGlobal), out: &[u8], end: usize)
    requires { end ≤ length out.now }
{
    if let Err(error) = rt.write_all(&out[..end]) {
        say_failure(rt, "script: standard output", error);
    }
}

// Answers the first bytes of the buffer.
fn answer(
    rt: &(impl Print + Eprint + AllocGlobal),
    input: &[u8],
    end: usize,
    a: u64,
    b: u64,
    pool: &mut [u64],
    out: &mut [u8; SCRIPT_BYTES],
)
    requires { end ≤ length input.now }
{
    let w = script_lines::script_text(&input[..end], a, b, pool, out);
    if w.number == 0 {
        write(rt, out, w.length);
    } else {
        say(rt, w.number, w.position as u64);
    }
}

// The buffer has one byte more than the longest input that is taken, so that a longer one is seen.
fn ask(rt: &(impl Input + Print + Eprint + AllocGlobal), a: u64, b: u64) {
    let mut input = [0u8; script_lines::MOST_BYTES + 1];
    let mut pool = [0u64; script_lines::POOL_WORDS];
    let mut out = [0u8; SCRIPT_BYTES];
    let f = fill(&mut rt.reader(), &mut input, 0);
    if let Some(error) = f.error {
        say_failure(rt, "script: standard input", error);
    } else {
        answer(rt, &input, f.end, a, b, &mut pool, &mut out);
    }
}

fn main(rt: HostRuntime) {
    let a = register(&rt, 1);
    let b = register(&rt, 2);
    if !has_argument(&rt, 3) & (a < 32) & (b < 32) {
        ask(&rt, a, b);
    } else {
        let _ = eprintln!(rt; "usage: script A B, two registers from 0 to 31");
    }
}
