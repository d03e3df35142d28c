// Registers as 32 hexadecimal digits: 32 of them read from a text, one written.
#![tactic(auto)]

ghost use Rattle.std.specs.Prelude.{◌≡◌, ◌+◌, ◌≤◌, ◌<◌, length};
ghost use Rattle.text_digits.specs.Writing.{Room, Wrote};
ghost use Rattle.wide.specs.Number.{words};
ghost use Rattle.run_registers.specs.Digits.{hex_value, hex_at, all_hex, hex_digits};
ghost use Rattle.run_registers.specs.Start.{is_gap, skip, is_register, pair_at, LineRead, StartRead};

use text_digits::hex_digit;

// The digit that a character shows, and 0 for what is none.
fn hex_value(b: u8) -> u64
    ensures { (result ≡ hex_value b) × (result < 16) }
{
    match (b as char).to_digit(16) {
        Some(digit) => digit as u64,
        None => 0,
    }
}

// The word that 16 digits show.
fn word_at(bytes: &[u8], at: usize) -> u64
    requires { at + 16 ≤ length bytes.now }
    ensures { result ≡ hex_at bytes.now at 16 }
{
    let mut word = 0;
    for j in 0..16 {
        word = 16 * word + hex_value(bytes[at + j]);
    }
    word
}

// Whether 32 characters are digits.
fn all_hex(bytes: &[u8], at: usize) -> bool
    requires { at + 32 ≤ length bytes.now }
    ensures { result ≡ all_hex bytes.now at 32 }
{
    let mut all = true;
    for j in 0..32 {
        all &= bytes[at + j].is_ascii_hexdigit();
    }
    all
}

// A blank, and a newline where it counts as one.
fn is_gap(newlines: bool, b: u8) -> bool
    ensures { result ≡ is_gap newlines b }
{
    (b == 32) | newlines & (b == 10)
}

// The place after the gap that begins at `from`.
fn gap_end(bytes: &[u8], from: usize, newlines: bool) -> usize
    requires { from ≤ length bytes.now }
    ensures { (result ≡ skip newlines bytes.now from) × (result ≤ length bytes.now) }
{
    for i in from..bytes.len() {
        if !is_gap(newlines, bytes[i]) {
            return i;
        }
    }
    bytes.len()
}

// Whether a register stands there: 32 digits, and a gap or nothing after them.
fn is_register(bytes: &[u8], at: usize) -> bool
    requires { at ≤ length bytes.now }
    ensures { result ≡ is_register bytes.now at }
{
    if bytes.len() - at < 32 {
        return false;
    }
    let end = at + 32;
    if end < bytes.len() {
        return all_hex(bytes, at) & is_gap(true, bytes[end]);
    }
    all_hex(bytes, at)
}

// Writes the two words of a register, the low one first.
fn put_pair(bytes: &[u8], at: usize, words: &mut [u64], to: usize) -> usize
    requires at_in_bounds { at + 32 ≤ length bytes.now }
    requires to_in_bounds { to + 2 ≤ length words.old }
    ensures { Wrote words.old to (pair_at bytes.now at) result words.new }
{
    words[to] = word_at(bytes, at + 16);
    words[to + 1] = word_at(bytes, at);
    to + 2
}

// 0 and 0, or 10 and which register is not there, 32 for what stands after the last; then the place of what follows the registers.
#[derive(Clone, Copy)]
pub struct Start {
    pub number: u64,
    pub position: usize,
    pub next: usize,
}

fn refused(position: usize) -> Start
    ensures { (result.number ≡ 10) × (result.position ≡ position) × (result.next ≡ 0) }
{
    Start {
        number: 10,
        position,
        next: 0,
    }
}

// After the last register its line has to end. The place after that.
fn line_after(bytes: &[u8], from: usize) -> Start
    requires { from ≤ length bytes.now }
    ensures { LineRead bytes.now from result }
{
    let at = gap_end(bytes, from, false);
    if at == bytes.len() {
        return Start {
            number: 0,
            position: 0,
            next: at,
        };
    }
    if bytes[at] == 10 {
        return Start {
            number: 0,
            position: 0,
            next: at + 1,
        };
    }
    refused(32)
}

// Reads 32 registers, v0 first, with blanks or newlines between them, and the end of the line of the last.
pub fn read_start(bytes: &[u8], words: &mut [u64; 64]) -> Start
    ensures { StartRead bytes.now words.old result words.new }
{
    let mut next = 0;
    for r in 0..32 {
        let at = gap_end(bytes, next, true);
        if !is_register(bytes, at) {
            return refused(r);
        }
        put_pair(bytes, at, words, 2 * r);
        next = at + 32;
    }
    line_after(bytes, next)
}

// The last k digits of a word.
pub fn put_digits(k: u64, x: u64, buf: &mut [u8], at: usize) -> usize
    requires { Room buf.old at (hex_digits k x) }
    ensures { Wrote buf.old at (hex_digits k x) result buf.new }
{
    if k == 0 {
        return at;
    }
    let i = put_digits(k - 1, x / 16, buf, at);
    buf[i] = hex_digit(x % 16);
    i + 1
}

// The 32 digits of a register.
pub fn put_register(low: u64, high: u64, buf: &mut [u8], at: usize) -> usize
    requires { at + 32 ≤ length buf.old }
    ensures { Wrote buf.old at (hex_digits 32 (words low high 0)) result buf.new }
{
    let middle = put_digits(16, high, buf, at);
    put_digits(16, low, buf, middle)
}
