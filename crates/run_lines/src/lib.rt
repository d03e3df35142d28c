// A routine run on 32 registers, from text to text: everything between the reads and the writes of the program `run`.
#![tactic(auto)]

ghost use Rattle.std.specs.Prelude.{◌≡◌, ◌+◌, ◌≤◌, ◌<◌, eqb, length};
ghost use Rattle.text_digits.specs.Writing.{Wrote};
ghost use Rattle.wide.specs.Number.{words};
ghost use Rattle.wide.specs.Registers.{registers_of};
ghost use Rattle.run_lines.specs.Output.{mark, register_line, registers_text, after_text, RanRest, RunWritten};

use line_routine::read_lines;
use run_block::{Register, Registers};
use run_registers::{put_register, read_start};
use text_digits::{put, put_decimal};

// The longest input that is read. No block of 85 records needs as much.
pub const MOST_BYTES: usize = 65536;

// Room for 32 lines of at most 39 bytes, and one more.
pub const ROOM: usize = 1536;

// 0 or a number of document 01, the position of what is refused, whether that is a register of the start, and the bytes written.
#[derive(Clone, Copy)]
pub struct Written {
    pub number: u64,
    pub position: usize,
    pub in_start: bool,
    pub length: usize,
}

fn is_same(old: Register, new: Register) -> bool
    ensures { result ≡ eqb (words old.low old.high 0) (words new.low new.high 0) }
{
    (old.low == new.low) & (old.high == new.high)
}

// The mark of a register that changed.
fn put_mark(same: bool, buf: &mut [u8], at: usize) -> usize
    requires { at + 2 ≤ length buf.old }
    ensures { Wrote buf.old at (mark same) result buf.new }
{
    if same {
        return at;
    }
    put(b" *", buf, at)
}

// A register after the run: its digits, its name, and the mark.
fn put_line(r: u64, old: Register, new: Register, buf: &mut [u8], at: usize) -> usize
    requires { (r < 32) × (at + 39 ≤ length buf.old) }
    ensures wrote { Wrote buf.old at (register_line r (words old.low old.high 0) (words new.low new.high 0)) result buf.new }
    ensures upper_bound { result ≤ at + 39 }
{
    let a = put_register(new.low, new.high, buf, at);
    let b = put(b" v", buf, a);
    let c = put_decimal(r, buf, b);
    let e = put_mark(is_same(old, new), buf, c);
    put(b"\n", buf, e)
}

// The 32 registers.
fn put_registers(start: Registers, after: Registers, buf: &mut [u8]) -> usize
    requires { 1248 ≤ length buf.old }
    ensures wrote { Wrote buf.old 0 (registers_text (registers_of start.words) (registers_of after.words)) result buf.new }
    ensures upper_bound { result ≤ 1248 }
{
    let mut end = 0;
    for r in 0..32 {
        end = put_line(r, start.get(r), after.get(r), buf, end);
    }
    end
}

// The registers, and a line where a lane saturated.
fn put_after(start: Registers, after: Registers, saturated: bool, buf: &mut [u8; ROOM]) -> usize
    ensures wrote { Wrote buf.old 0 (after_text (registers_of start.words) (registers_of after.words) saturated) result buf.new }
    ensures upper_bound { result ≤ 1536 }
{
    let end = put_registers(start, after, buf);
    if saturated {
        return put(b"saturated\n", buf, end);
    }
    end
}

fn refused(number: u64, position: usize, in_start: bool) -> Written
    ensures { (result.number ≡ number) × (result.position ≡ position) × (result.in_start ≡ in_start) × (result.length ≡ 0) }
{
    Written {
        number,
        position,
        in_start,
        length: 0,
    }
}

// The lines of a routine, run on the registers of a start.
fn run_rest(start: Registers, rest: &[u8], out: &mut [u8; ROOM]) -> Written
    ensures { RanRest start.words rest.now out.old result out.new }
{
    let mut records = [0u64; 510];
    let read = read_lines(rest, &mut records);
    if 0 < read.number {
        return refused(read.number, read.position, false);
    }
    let end = 6 * read.count;
    let ran = run_block::run(start, &records[..end]);
    if 0 < ran.number {
        return refused(ran.number, ran.position, false);
    }
    let after = ran.registers;
    let length = put_after(start, after, ran.saturated, out);
    Written {
        number: ran.number,
        position: ran.position,
        in_start: false,
        length,
    }
}

// Reads 32 registers and a routine, and writes the registers after it. A refusal writes nothing.
pub fn run_text(input: &[u8], out: &mut [u8; ROOM]) -> Written
    ensures { RunWritten input.now out.old result out.new }
{
    if MOST_BYTES < input.len() {
        return refused(8, 0, false);
    }
    let mut words = [0u64; 64];
    let s = read_start(input, &mut words);
    if 0 < s.number {
        return refused(s.number, s.position, true);
    }
    let next = s.next;
    run_rest(Registers { words }, &input[next..], out)
}
