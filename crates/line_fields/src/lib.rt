// A line of six numbers in columns, as the line program reads it. The Rust has no counterpart.
#![tactic(auto)]

ghost use Rattle.std.specs.Prelude.{◌≡◌, ◌≤◌, length};
ghost use Rattle.line_fields.specs.Fields.{in_columns, fields};

use line_columns::{field, is_field};

// Whether a line is six fields.
pub fn in_columns(line: &[u8]) -> bool
    ensures { result ≡ in_columns line.now }
{
    if line.len() != 24 {
        return false;
    }
    is_field(line, 0)
        & is_field(line, 4)
        & is_field(line, 8)
        & is_field(line, 12)
        & is_field(line, 16)
        & is_field(line, 20)
}

// The six numbers of a line.
pub fn fields_of(line: &[u8]) -> [u64; 6]
    requires { 24 ≤ length line.now }
    ensures { result ≡ fields line.now }
{
    [
        field(line, 0),
        field(line, 4),
        field(line, 8),
        field(line, 12),
        field(line, 16),
        field(line, 20),
    ]
}
