// Every legal form, listed (document 02, S-14): a line of document 01's columns for each.
#![tactic(auto)]

ghost use Rattle.std.specs.Prelude.{◌≡◌, ◌≤◌, ◌<◌};
ghost use Rattle.text_digits.specs.Writing.{Room, Wrote};
ghost use Rattle.neon_form.specs.Code.{OfCode};
ghost use Rattle.line_records.specs.Line.{lines};
ghost use Rattle.forms_list.specs.Forms.{second_of, forms};
ghost use Rattle.forms_list.specs.Texts.{immediates_text, arrangement_text, operation_text, forms_text};

use line_records::put_line;
use neon::form_code;
use neon_form::{has_second, lane_bits, least_immediate, most_immediate};

// The bytes of all lines: 2,966 of 25.
pub const LENGTH: usize = 74150;

// The register that m names in the list.
fn second(code: u64) -> u64
    ensures { OfCode code (λ o v. result ≡ second_of o) }
{
    if has_second(code) { 2 } else { 0 }
}

// Writes a line for each immediate from least to most.
fn put_immediates(
    operation: u64,
    arrangement: u64,
    least: u64,
    most: u64,
    m: u64,
    buf: &mut [u8],
    at: usize,
) -> usize
    requires operation_bound { (operation < 10000) × (arrangement < 10000) × (most < 10000) × (m < 10000) }
    requires room { Room buf.old at (immediates_text operation arrangement least most m) }
    ensures { Wrote buf.old at (immediates_text operation arrangement least most m) result buf.new }
{
    let mut end = at;
    for i in least..=most {
        end = put_line(operation, arrangement, i, 0, 1, m, buf, end);
    }
    end
}

// Writes the lines of an operation at an arrangement.
fn put_arrangement(operation: u64, arrangement: u64, buf: &mut [u8], at: usize) -> usize
    requires le_operation { (1 ≤ operation) × (operation ≤ 67) × (arrangement ≤ 6) }
    requires room { Room buf.old at (arrangement_text operation arrangement) }
    ensures { Wrote buf.old at (arrangement_text operation arrangement) result buf.new }
{
    let code = form_code(operation, arrangement);
    if code == 0 {
        return at;
    }
    let least = least_immediate(code);
    let most = most_immediate(code, lane_bits(arrangement));
    put_immediates(operation, arrangement, least, most, second(code), buf, at)
}

// Writes the lines of an operation.
fn put_operation(operation: u64, buf: &mut [u8], at: usize) -> usize
    requires le_operation { (1 ≤ operation) × (operation ≤ 67) }
    requires room { Room buf.old at (operation_text operation) }
    ensures { Wrote buf.old at (operation_text operation) result buf.new }
{
    let mut end = at;
    for arrangement in 0..7 {
        end = put_arrangement(operation, arrangement, buf, end);
    }
    end
}

// Writes the lines of all operations.
fn put_forms(buf: &mut [u8], at: usize) -> usize
    requires { Room buf.old at forms_text }
    ensures { Wrote buf.old at forms_text result buf.new }
{
    let mut end = at;
    for operation in 1..=67 {
        end = put_operation(operation, buf, end);
    }
    end
}

// Writes a line for every legal form, in the order of the list.
pub fn write_forms(buffer: &mut [u8; LENGTH])
    ensures { buffer.new ≡ lines forms }
{
    put_forms(buffer, 0);
}
