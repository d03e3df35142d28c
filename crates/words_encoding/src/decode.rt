// The record of a word, by the word's fields.
ghost use Rattle.std.specs.Prelude.{◌≡◌, ◌≤◌, ◌<◌};
ghost use Rattle.neon.specs.Op.{op_at};
ghost use Rattle.neon.specs.Form.{form};
ghost use Rattle.neon_form.specs.Code.{OfCode};
ghost use Rattle.words_encoding.specs.Encoding.{encoding};
ghost use Rattle.words_encoding.specs.Parts.{key_of};
ghost use Rattle.words_encoding.specs.Decode.{class_number, class_at, operation_at, size_of_immh, size_at, arrangement_of, element_at, immediate_at, second_at, decode};

use crate::encode::{encode_word, is_long};
use block_record_check::record_number;
use neon::{Instruction, form_code};
use neon_form::{by_element, has_second, lane_bits};

// The operations of the classes by their fields, 0 if there is none: 64 bytes per class, the lowest byte of a word first.
const OPERATIONS: [u64; 40] = [
    // three different
    0x00_42_00_40_00_00_00_00, // Q 0, U 0, opcode 0 to 7
    0x00_00_2a_00_2c_00_2b_00, // Q 0, U 0, opcode 8 to 15
    0x00_43_00_41_00_00_00_00, // Q 0, U 1, opcode 0 to 7
    0x00_00_00_00_00_00_00_00, // Q 0, U 1, opcode 8 to 15
    0x00_42_00_40_00_00_00_00, // Q 1, U 0, opcode 0 to 7
    0x00_00_2d_00_2f_00_2e_00, // Q 1, U 0, opcode 8 to 15
    0x00_43_00_41_00_00_00_00, // Q 1, U 1, opcode 0 to 7
    0x00_00_00_00_00_00_00_00, // Q 1, U 1, opcode 8 to 15
    // three same
    0x00_00_15_00_00_19_13_17, // U 0, opcode 0 to 7
    0x3a_38_00_00_0f_0b_0d_09, // U 0, opcode 8 to 15
    0x00_28_00_00_00_00_00_00, // U 0, opcode 16 to 23
    0x00_00_00_00_00_00_00_00, // U 0, opcode 24 to 31
    0x00_00_16_00_00_1a_14_18, // U 1, opcode 0 to 7
    0x3b_39_00_00_10_0c_0e_0a, // U 1, opcode 8 to 15
    0x00_29_00_00_00_00_00_00, // U 1, opcode 16 to 23
    0x00_00_00_00_00_00_00_00, // U 1, opcode 24 to 31
    // two-register miscellaneous
    0x26_00_3c_3e_36_00_00_00, // U 0, opcode 0 to 7
    0x00_00_00_00_00_00_00_00, // U 0, opcode 8 to 15
    0x00_00_00_1b_00_00_00_00, // U 0, opcode 16 to 23
    0x00_00_00_00_00_00_00_00, // U 0, opcode 24 to 31
    0x27_00_3f_3d_37_00_00_00, // U 1, opcode 0 to 7
    0x00_00_00_00_00_00_00_00, // U 1, opcode 8 to 15
    0x00_00_00_1c_00_1d_00_00, // U 1, opcode 16 to 23
    0x00_00_00_00_00_00_00_00, // U 1, opcode 24 to 31
    // by element
    0x32_00_00_00_31_00_00_00, // Q 0, U 0, opcode 0 to 7
    0x00_00_00_00_30_00_00_00, // Q 0, U 0, opcode 8 to 15
    0x00_00_00_00_00_00_00_00, // Q 0, U 1, opcode 0 to 7
    0x00_00_00_00_00_00_00_00, // Q 0, U 1, opcode 8 to 15
    0x35_00_00_00_34_00_00_00, // Q 1, U 0, opcode 0 to 7
    0x00_00_00_00_33_00_00_00, // Q 1, U 0, opcode 8 to 15
    0x00_00_00_00_00_00_00_00, // Q 1, U 1, opcode 0 to 7
    0x00_00_00_00_00_00_00_00, // Q 1, U 1, opcode 8 to 15
    // shift by immediate
    0x00_00_00_07_00_00_00_05, // U 0, opcode 0 to 7
    0x00_02_00_00_00_01_00_00, // U 0, opcode 8 to 15
    0x00_00_00_00_21_20_1f_1e, // U 0, opcode 16 to 23
    0x00_00_00_00_00_00_00_00, // U 0, opcode 24 to 31
    0x00_00_00_08_00_00_00_06, // U 1, opcode 0 to 7
    0x00_03_00_04_00_11_00_12, // U 1, opcode 8 to 15
    0x00_00_00_00_23_22_25_24, // U 1, opcode 16 to 23
    0x00_00_00_00_00_00_00_00, // U 1, opcode 24 to 31
];

// The class of a word, by its bits 24, 11 and 10.
fn class_at(w: u64) -> u64
    ensures { (result ≡ class_at w) × (result ≤ 4) }
{
    if w / 16777216 % 2 == 1 {
        return 3 + w / 1024 % 2;
    }
    if w / 1024 % 2 == 1 {
        return 1;
    }
    2 * (w / 2048 % 2)
}

// The place of the fields of a word of a class among the 64 entries of that class.
fn key(class: u64, w: u64) -> u64
    requires { class ≤ 4 }
    ensures { (result ≡ key_of class w) × (result < 64) }
{
    if (class == 0) | (class == 3) {
        return 32 * (w / 1073741824 % 2) + 16 * (w / 536870912 % 2) + w / 4096 % 16;
    }
    if class == 2 {
        return 32 * (w / 536870912 % 2) + w / 4096 % 32;
    }
    32 * (w / 536870912 % 2) + w / 2048 % 32
}

// The operation of a word, 0 if it has none.
fn operation_at(w: u64) -> u64
    ensures { (result ≡ operation_at w) × (result ≤ 67) }
{
    let class = class_at(w);
    let at = key(class, w);
    let k = (8 * class + at / 8) as usize;
    (OPERATIONS[k] >> (8 * (at % 8))) % 256
}

// The size that the highest bit of immh tells.
fn size_of_immh(immh: u64) -> u64
    ensures { (result ≡ size_of_immh immh) × (result ≤ 3) }
{
    if immh < 2 {
        return 0;
    }
    if immh < 4 {
        return 1;
    }
    if immh < 8 { 2 } else { 3 }
}

// The size that a word of an operation tells.
fn size_at(class: u64, operation: u64, w: u64) -> u64
    requires { (1 ≤ operation) × (operation ≤ 67) × (class ≡ class_number (encoding (op_at operation)).class) }
    ensures { (result ≡ size_at (encoding (op_at operation)).class w) × (result ≤ 3) }
{
    if class == 4 {
        return size_of_immh(w / 524288 % 16);
    }
    if operation == 63 {
        return 0;
    }
    w / 4194304 % 4
}

// The arrangement that Q and a size tell.
fn arrangement_of(operation: u64, q: u64, size: u64) -> u64
    requires { (1 ≤ operation) × (operation ≤ 67) × (q ≤ 1) × (size ≤ 3) }
    ensures { (result ≡ arrangement_of (form (op_at operation)).lanes q size) × (result ≤ 6) }
{
    if is_long(operation) {
        return (2 * size + 3).min(6);
    }
    (2 * size + q).min(6)
}

// The number of an element.
fn element_at(bits: u64, w: u64) -> u64
    ensures { result ≡ element_at bits w }
{
    if bits == 32 {
        return 4 * (w / 2048 % 2) + 2 * (w / 2097152 % 2) + w / 1048576 % 2;
    }
    2 * (w / 2048 % 2) + w / 2097152 % 2
}

// The immediate of a word.
fn immediate_at(code: u64, bits: u64, w: u64) -> u64
    requires { bits ≤ 64 }
    ensures { OfCode code (λ o v. result ≡ immediate_at (form o).immediate bits w) }
{
    let row = code % 8;
    match row {
        1 => 0,
        2 => (w / 65536 % 128).saturating_sub(bits),
        3 => (2 * bits).saturating_sub(w / 65536 % 128),
        _ => element_at(bits, w),
    }
}

// The second source of a word.
fn second_at(code: u64, bits: u64, w: u64) -> u64
    ensures { OfCode code (λ o v. result ≡ second_at o bits w) }
{
    if !has_second(code) {
        return 0;
    }
    if by_element(code) & (bits == 32) {
        return w / 65536 % 16;
    }
    w / 65536 % 32
}

// The record that a word encodes, if any.
pub fn decode_word(w: u64) -> Option<Instruction>
    ensures { result ≡ decode w }
{
    let operation = operation_at(w);
    if operation == 0 {
        return None;
    }
    let arrangement = arrangement_of(
        operation,
        w / 1073741824 % 2,
        size_at(class_at(w), operation, w),
    );
    let code = form_code(operation, arrangement);
    if code == 0 {
        return None;
    }
    let bits = lane_bits(arrangement);
    let i = immediate_at(code, bits, w);
    let m = second_at(code, bits, w);
    let d = w % 32;
    let n = w / 32 % 32;
    let record = Instruction {
        operation,
        arrangement,
        i,
        d,
        n,
        m,
    };
    if record_number(record).is_err() {
        return None;
    }
    if encode_word(operation, arrangement, i, d, n, m) == w {
        Some(record)
    } else {
        None
    }
}
