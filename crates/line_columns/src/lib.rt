// Numbers in columns: right-justified decimals in fields of 4 characters, read and written. The Rust has no counterpart.
#![tactic(auto)]

ghost use Rattle.std.specs.Prelude.{◌≡◌, ◌+◌, ◌%◌, ◌≤◌, ◌<◌, eqb, length};
ghost use Rattle.text_digits.specs.Writing.{Room, Wrote};
ghost use Rattle.line_columns.specs.Columns.{columns, character_of, shown, field_at, is_field};

use text_digits::{put, tens_of};

// The digit that a character shows.
fn digit(b: u8) -> u64
    ensures { (result ≡ shown b) × (result ≤ 9) }
{
    if b.is_ascii_digit() {
        return (b - 48) as u64;
    }
    0
}

// The number that a field shows.
pub fn field(line: &[u8], at: usize) -> u64
    requires { at + 4 ≤ length line.now }
    ensures { (result ≡ field_at line.now at) × (result < 10000) }
{
    let a = digit(line[at]);
    let b = digit(line[at + 1]);
    let c = digit(line[at + 2]);
    let d = digit(line[at + 3]);
    1000 * a + 100 * b + 10 * c + d
}

// The character of a column but the last: `above` is the number that the digits up to this column make, `ones` the last of them. A blank
// if `above` is 0.
fn character(above: u64, ones: u64) -> u8
    requires { ones ≡ above % 10 }
    ensures { result ≡ character_of above }
{
    if above == 0 { 32 } else { (48 + ones) as u8 }
}

// A number in columns.
fn written(x: u64) -> [u8; 4]
    requires { x < 10000 }
    ensures { result ≡ columns x }
{
    let tens = tens_of(x);
    let hundreds = tens_of(tens.tens);
    let thousands = tens_of(hundreds.tens);
    [
        character(thousands.tens, thousands.tens),
        character(hundreds.tens, thousands.ones),
        character(tens.tens, hundreds.ones),
        (48 + tens.ones) as u8,
    ]
}

// Whether a character is that of a column but the last; its digit is the last of `above`.
fn stands(b: u8, above: u64) -> bool
    requires { shown b ≡ above % 10 }
    ensures { result ≡ eqb b (character_of above) }
{
    if above == 0 {
        b == 32
    } else {
        b.is_ascii_digit()
    }
}

// Whether the 4 characters are a number in columns.
pub fn is_field(line: &[u8], at: usize) -> bool
    requires { at + 4 ≤ length line.now }
    ensures { result ≡ is_field line.now at }
{
    let a = digit(line[at]);
    let b = 10 * a + digit(line[at + 1]);
    let c = 10 * b + digit(line[at + 2]);
    stands(line[at], a)
        & stands(line[at + 1], b)
        & stands(line[at + 2], c)
        & line[at + 3].is_ascii_digit()
}

// Writes a number in columns.
pub fn put_columns(x: u64, buf: &mut [u8], at: usize) -> usize
    requires x_bound { x < 10000 }
    requires room { Room buf.old at (columns x) }
    ensures { Wrote buf.old at (columns x) result buf.new }
{
    let w = written(x);
    put(&w, buf, at)
}
