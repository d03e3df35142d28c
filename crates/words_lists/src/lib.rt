// Lists of A64 words, read as records of flat numbers, six each, and written back (document 02, S-7).
#![tactic(auto)]

ghost use Rattle.std.specs.Prelude.{◌≡◌, ◌+◌, ◌*◌, ◌≤◌, ◌<◌, length};
ghost use Rattle.words_encoding.specs.Decode.{decode};
ghost use Rattle.text_digits.specs.Writing.{Room, Wrote};
ghost use Rattle.words_lists.specs.Words.{word_at, is_record, numbers, flat, listed, records_in, Good, WordsRead, word_bytes, AllGood, words_in, WordsWritten};

use block_check::{ListAnswer, records_refusal};
use block_record_check::record_at;
use line_records::put_line;
use neon::Instruction;
use words_encoding::decode::decode_word;
use words_encoding::encode::encode_word;

// Word j.
pub fn word_at(bytes: &[u8], j: usize) -> u64
    requires { 4 * j + 4 ≤ length bytes.now }
    ensures { result ≡ word_at bytes.now j }
{
    let at = 4 * j;
    let four = [bytes[at], bytes[at + 1], bytes[at + 2], bytes[at + 3]];
    u64::from(u32::from_le_bytes(four))
}

// Whether a word encodes a legal form.
pub fn is_record(w: u64) -> bool
    ensures { result ≡ is_record (decode w) }
{
    decode_word(w).is_some()
}

// The number of whole words before the first that encodes no legal form.
fn good_words(bytes: &[u8]) -> usize
    ensures { Good bytes.now result }
{
    let count = bytes.len() / 4;
    for j in 0..count {
        if !is_record(word_at(bytes, j)) {
            return j;
        }
    }
    count
}

// Writes the six numbers of a record.
fn put_six(c: Instruction, records: &mut [u64], at: usize) -> usize
    requires { at + 6 ≤ length records.old }
    ensures { Wrote records.old at (numbers c) result records.new }
{
    let end = at + 6;
    records[at..end].copy_from_slice(&[c.operation, c.arrangement, c.i, c.d, c.n, c.m]);
    end
}

// Writes the record of a word.
fn put_record(w: u64, records: &mut [u64], at: usize) -> usize
    requires { Room records.old at (flat (decode w)) }
    ensures { Wrote records.old at (flat (decode w)) result records.new }
{
    let Some(c) = decode_word(w) else {
        return at;
    };
    put_six(c, records, at)
}

// Writes the record of a word as a line of columns; nothing for a word that encodes no legal form.
pub fn list_word(w: u64, out: &mut [u8], at: usize) -> usize
    requires { at + 25 ≤ length out.old }
    ensures wrote { Wrote out.old at (listed (decode w)) result out.new }
    ensures lower_bound { (at ≤ result) × (result ≤ at + 25) }
{
    let Some(c) = decode_word(w) else {
        return at;
    };
    put_line(c.operation, c.arrangement, c.i, c.d, c.n, c.m, out, at)
}

// Writes the records of all words.
fn put_records(bytes: &[u8], records: &mut [u64]) -> usize
    requires { Room records.old 0 (records_in bytes.now) }
    ensures { Wrote records.old 0 (records_in bytes.now) result records.new }
{
    let count = bytes.len() / 4;
    let mut end = 0;
    for j in 0..count {
        end = put_record(word_at(bytes, j), records, end);
    }
    end
}

// Reads words into records. Refuses by 12 with the position of the first word that encodes no legal form, a broken last word among
// them, then by 9 if the lent list is too short; a refusal writes nothing.
pub fn read_words(bytes: &[u8], records: &mut [u64]) -> ListAnswer
    ensures { WordsRead bytes.now records.old result records.new }
{
    let count = bytes.len() / 4;
    let good = good_words(bytes);
    if good < count {
        return ListAnswer {
            number: 12,
            position: good,
            count: 0,
        };
    }
    if 0 < bytes.len() % 4 {
        return ListAnswer {
            number: 12,
            position: count,
            count: 0,
        };
    }
    if records.len() < 6 * count {
        return ListAnswer {
            number: 9,
            position: 0,
            count: 0,
        };
    }
    put_records(bytes, records);
    ListAnswer {
        number: 0,
        position: 0,
        count,
    }
}

// Writes the four bytes of a word.
fn put_word(w: u32, bytes: &mut [u8], at: usize) -> usize
    requires { at + 4 ≤ length bytes.old }
    ensures { Wrote bytes.old at (word_bytes w) result bytes.new }
{
    let end = at + 4;
    bytes[at..end].copy_from_slice(&w.to_le_bytes());
    end
}

// Writes the words of all records, which are legal.
fn put_words(records: &[u64], bytes: &mut [u8]) -> usize
    requires all_good { AllGood records.now }
    requires room { Room bytes.old 0 (words_in records.now) }
    ensures { Wrote bytes.old 0 (words_in records.now) result bytes.new }
{
    let count = records.len() / 6;
    let mut end = 0;
    for j in 0..count {
        let c = record_at(records, j);
        let w = encode_word(c.operation, c.arrangement, c.i, c.d, c.n, c.m);
        end = put_word(w as u32, bytes, end);
    }
    end
}

// Writes records as words. Refuses by 2, 3, 4 and 7 with the position of the first bad record, then by 9 if the lent bytes are too
// few; a refusal writes nothing. Numbers after the last whole record are not read.
pub fn write_words(records: &[u64], bytes: &mut [u8]) -> ListAnswer
    ensures { WordsWritten records.now bytes.old result bytes.new }
{
    let count = records.len() / 6;
    if let Err(refused) = records_refusal(records) {
        return ListAnswer {
            number: u64::from(refused.refusal),
            position: refused.position,
            count: 0,
        };
    }
    if bytes.len() < 4 * count {
        return ListAnswer {
            number: 9,
            position: 0,
            count: 0,
        };
    }
    put_words(records, bytes);
    ListAnswer {
        number: 0,
        position: 0,
        count,
    }
}
