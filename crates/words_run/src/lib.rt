// The words of an input as lines of columns, or as the refusals of those that encode no legal form: everything between the reads and the
// writes of the program `words`.
#![tactic(auto)]

ghost use Rattle.std.specs.Prelude.{◌≡◌, ◌+◌, ◌*◌, ◌≤◌, ◌<◌, length};
ghost use Rattle.text_digits.specs.Writing.{Wrote};
ghost use Rattle.words_run.specs.Rows.{word_count, name_text, foreign_text, broken_text, word_row, row, Goes};

use run_registers::put_digits;
use text_digits::{put, put_decimal};
use words_lists::{is_record, list_word, word_at};

// Room for the longest row.
pub const ROW_ROOM: usize = 80;

// How far it came: the word that is next, and the bytes put into the output.
#[derive(Clone, Copy)]
pub struct Progress {
    pub next: usize,
    pub output: usize,
}

// The words, a broken last one among them.
fn word_count(bytes: &[u8]) -> usize
    ensures { result ≡ word_count bytes.now }
{
    let whole = bytes.len() / 4;
    if 0 < bytes.len() % 4 {
        return whole + 1;
    }
    whole
}

// The position and the number of a word that is refused.
fn put_name(j: u64, out: &mut [u8], at: usize) -> usize
    requires { at + 38 ≤ length out.old }
    ensures wrote { Wrote out.old at (name_text j) result out.new }
    ensures upper_bound { result ≤ at + 38 }
{
    let a = put(b"words: word ", out, at);
    let b = put_decimal(j, out, a);
    put(b": 12, ", out, b)
}

// A word that encodes no legal form, by its eight digits.
fn put_foreign(w: u64, out: &mut [u8], at: usize) -> usize
    requires { at + 28 ≤ length out.old }
    ensures wrote { Wrote out.old at (foreign_text w) result out.new }
    ensures upper_bound { result ≤ at + 28 }
{
    let a = put(b"none of our forms: ", out, at);
    let b = put_digits(8, w, out, a);
    put(b"\n", out, b)
}

// A last word of n bytes, fewer than four.
fn put_broken(n: u64, out: &mut [u8], at: usize) -> usize
    requires { (n < 4) × (at + 16 ≤ length out.old) }
    ensures wrote { Wrote out.old at (broken_text n) result out.new }
    ensures upper_bound { result ≤ at + 16 }
{
    let a = put(b"broken: bytes ", out, at);
    let b = put_decimal(n, out, a);
    put(b"\n", out, b)
}

// The row of a whole word at position j.
fn put_word_row(refusals: bool, j: u64, w: u64, out: &mut [u8], at: usize) -> usize
    requires { at + 80 ≤ length out.old }
    ensures wrote { Wrote out.old at (word_row refusals j w) result out.new }
    ensures upper_bound { result ≤ at + 80 }
{
    if !is_record(w) {
        let a = put_name(j, out, at);
        return put_foreign(w, out, a);
    }
    if refusals {
        return at;
    }
    list_word(w, out, at)
}

// The row of word j.
fn put_row(refusals: bool, bytes: &[u8], j: usize, out: &mut [u8], at: usize) -> usize
    requires j_in_bounds { 4 * j < length bytes.now }
    requires at_in_bounds { at + 80 ≤ length out.old }
    ensures wrote { Wrote out.old at (row refusals bytes.now j) result out.new }
    ensures upper_bound { result ≤ at + 80 }
{
    let left = bytes.len() - 4 * j;
    if left < 4 {
        let a = put_name(j as u64, out, at);
        return put_broken(left as u64, out, a);
    }
    put_word_row(refusals, j as u64, word_at(bytes, j), out, at)
}

// Writes the rows of the words from `from` on, as many as have room: all rows, or the refusals alone.
pub fn put_rows(refusals: bool, bytes: &[u8], from: usize, out: &mut [u8]) -> Progress
    ensures { Goes refusals bytes.now from out.old result out.new }
{
    let count = word_count(bytes);
    let mut output = 0;
    for next in from..count {
        if out.len() - output < ROW_ROOM {
            return Progress { next, output };
        }
        output = put_row(refusals, bytes, next, out, output);
    }
    Progress {
        next: count.max(from),
        output,
    }
}
