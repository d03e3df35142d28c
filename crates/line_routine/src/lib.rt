// A routine as lines of document 01's columns, read into records of flat numbers, six each.
#![tactic(auto)]

ghost use Rattle.std.specs.Prelude.{◌≡◌, ◌+◌, ◌*◌, ◌≤◌, ◌<◌, length};
ghost use Rattle.text_digits.specs.Writing.{Room, Wrote};
ghost use Rattle.line_fields.specs.Fields.{fields};
ghost use Rattle.line_routine.specs.Routine.{line_count, line_at, is_line, numbers_in, Good, LinesRead};

use block_check::ListAnswer;
use line_fields::{fields_of, in_columns};

// The lines, the last also if no newline ends it.
fn line_count(bytes: &[u8]) -> usize
    ensures { result ≡ line_count bytes.now }
{
    let whole = bytes.len() / 25;
    if 0 < bytes.len() % 25 {
        return whole + 1;
    }
    whole
}

// Whether line j is in columns, with a newline or nothing after it.
fn is_line(bytes: &[u8], j: usize) -> bool
    requires { 25 * j < length bytes.now }
    ensures { result ≡ is_line bytes.now j }
{
    let at = 25 * j;
    if bytes.len() - at < 24 {
        return false;
    }
    let end = at + 24;
    if !in_columns(&bytes[at..end]) {
        return false;
    }
    if end < bytes.len() {
        return bytes[end] == 10;
    }
    true
}

// The number of lines before the first that is not in columns.
fn good_lines(bytes: &[u8]) -> usize
    ensures { Good bytes.now result }
{
    let count = line_count(bytes);
    for j in 0..count {
        if !is_line(bytes, j) {
            return j;
        }
    }
    count
}

// Writes the six numbers of line j.
fn put_fields(bytes: &[u8], j: usize, records: &mut [u64], at: usize) -> usize
    requires j_in_bounds { 25 * j + 24 ≤ length bytes.now }
    requires at_in_bounds { at + 6 ≤ length records.old }
    ensures { Wrote records.old at (fields (line_at bytes.now j)) result records.new }
{
    let from = 25 * j;
    let to = from + 24;
    let end = at + 6;
    records[at..end].copy_from_slice(&fields_of(&bytes[from..to]));
    end
}

// Writes the numbers of all lines.
fn put_numbers(bytes: &[u8], records: &mut [u64]) -> usize
    requires good { Good bytes.now (line_count bytes.now) }
    requires room { Room records.old 0 (numbers_in bytes.now) }
    ensures { Wrote records.old 0 (numbers_in bytes.now) result records.new }
{
    let count = line_count(bytes);
    let mut end = 0;
    for j in 0..count {
        end = put_fields(bytes, j, records, end);
    }
    end
}

// Reads lines into records. Refuses by 10 with the position of the first line that is not in columns, then by 8 if there are more
// lines than the lent list holds; a refusal writes nothing.
pub fn read_lines(bytes: &[u8], records: &mut [u64]) -> ListAnswer
    ensures { LinesRead bytes.now records.old result records.new }
{
    let count = line_count(bytes);
    let good = good_lines(bytes);
    if good < count {
        return ListAnswer {
            number: 10,
            position: good,
            count: 0,
        };
    }
    if records.len() < 6 * count {
        return ListAnswer {
            number: 8,
            position: 0,
            count: 0,
        };
    }
    put_numbers(bytes, records);
    ListAnswer {
        number: 0,
        position: 0,
        count,
    }
}
