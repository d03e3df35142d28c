// Runs a routine on 32 registers: `run START` takes the registers from the file START and the routine, in columns, from standard input;
// `run` takes both from standard input, the registers first. Standard output gets the registers after it. It only reads and writes: what
// is written for the bytes that are read is the library's, `run_lines`. A refusal is said on standard error, and so is the first read or
// write that fails.
#![tactic(auto)]

ghost use Rattle.std.specs.Prelude.{◌≤◌, length};

use line_input::{Filled, fill, say_failure};
use std::env::{Env, FillError};
use std::fs;
use std::io::{Error, ErrorKind};
use std::rt::Files;

// A newline after the bytes of a file that ends without one.
fn end_line(input: &mut [u8], end: usize) -> usize
    requires { end ≤ length input.old }
    ensures { result ≤ length input.new }
{
    if end == 0 {
        return end;
    }
    if end == input.len() {
        return end;
    }
    if input[end - 1] == b'\n' {
        return end;
    }
    input[end] = b'\n';
    end + 1
}

// Whether there is an argument of this number; the first has number 1.
fn has_argument(rt: &impl Env, number: usize) -> bool {
    !matches!(rt.arg(number, &mut []), Err(FillError::NotPresent))
}

// Opens the file that the argument names.
fn open_start<R: Files + Env>(rt: &R) -> Result<R::File, Error> {
    let mut name = [0u8; 4096];
    let Ok(n) = rt.arg(1, &mut name) else {
        return Err(Error::new(ErrorKind::InvalidFilename, "File name too long"));
    };
    match str::from_utf8(&name[..n]) {
        Ok(path) => fs::open(rt, path),
        Err(_) => Err(Error::new(ErrorKind::InvalidFilename, "File name not in UTF-8")),
    }
}

// The registers, where a file has them.
fn read_start(rt: &(impl Files + Env + Eprint + AllocGlobal), input: &mut [u8]) -> Filled
    ensures { result.end ≤ length input.new }
{
    let mut file = match open_start(rt) {
        Ok(file) => file,
        Err(error) => {
            say_failure(rt, "run: START", error);
            return Filled {
                end: 0,
                error: Some(error),
            };
        }
    };
    let f = fill(&mut file, input, 0);
    if let Some(error) = f.error {
        say_failure(rt, "run: START", error);
    }
    Filled {
        end: end_line(input, f.end),
        error: f.error,
    }
}

// What standard input has, after the bytes that are there.
fn read_rest(rt: &(impl Input + Eprint + AllocGlobal), input: &mut [u8], from: usize) -> Filled
    requires { from ≤ length input.old }
    ensures { result.end ≤ length input.new }
{
    let f = fill(&mut rt.reader(), input, from);
    if let Some(error) = f.error {
        say_failure(rt, "run: standard input", error);
    }
    f
}

fn read_all(rt: &(impl Files + Env + Input + Eprint + AllocGlobal), input: &mut [u8]) -> Filled
    ensures { result.end ≤ length input.new }
{
    if !has_argument(rt, 1) {
        return read_rest(rt, input, 0);
    }
    let s = read_start(rt, input);
    if s.error.is_some() {
        return s;
    }
    read_rest(rt, input, s.end)
}

// The word of a number, as README has it.
fn say_word(rt: &impl Eprint, number: u64) {
    let word = match number {
        2 => "no such operation",
        3 => "no such form",
        4 => "immediate",
        7 => "register",
        8 => "long block",
        _ => "line not in columns",
    };
    let _ = eprintln!(rt; "{word}");
}

// What refuses a line or a record of the routine; its length is of no record.
fn say_record(rt: &impl Eprint, number: u64, position: u64) {
    let _ = if number == 8 {
        eprint!(rt; "run: {number}, ")
    } else {
        eprint!(rt; "run: record {position}: {number}, ")
    };
    say_word(rt, number);
}

// A register of the start that is not there.
fn say_register(rt: &impl Eprint, number: u64, position: u64) {
    let _ = if position == 32 {
        eprintln!(rt; "run: after v31: {number}, its line goes on")
    } else {
        eprintln!(rt; "run: v{position}: {number}, not 32 hexadecimal digits")
    };
}

fn write(rt: &(impl Print + Eprint + AllocGlobal), out: &[u8], end: usize)
    requires { end ≤ length out.now }
{
    if let Err(error) = rt.write_all(&out[..end]) {
        say_failure(rt, "run: standard output", error);
    }
}

// Answers the first bytes of the buffer.
fn answer(
    rt: &(impl Print + Eprint + AllocGlobal),
    input: &[u8],
    end: usize,
    out: &mut [u8; run_lines::ROOM],
)
    requires { end ≤ length input.now }
{
    let w = run_lines::run_text(&input[..end], out);
    if w.number == 0 {
        write(rt, out, w.length);
        return;
    }
    if w.in_start {
        say_register(rt, w.number, w.position as u64);
    } else {
        say_record(rt, w.number, w.position as u64);
    }
}

// The buffer has one byte more than the longest input that is taken, so that a longer one is seen.
fn main(rt: HostRuntime) {
    if has_argument(&rt, 2) {
        let _ = eprintln!(rt; "usage: run [START]");
        return;
    }
    let mut input = [0u8; run_lines::MOST_BYTES + 1];
    let mut out = [0u8; run_lines::ROOM];
    let f = read_all(&rt, &mut input);
    if f.error.is_none() {
        answer(&rt, &input, f.end, &mut out);
    }
}
