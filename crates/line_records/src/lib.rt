// A record written as a line of document 01's columns.
#![tactic(auto)]

ghost use Rattle.std.specs.Prelude.{◌<◌};
ghost use Rattle.block_record_check.specs.Record.{instruction};
ghost use Rattle.text_digits.specs.Writing.{Room, Wrote};
ghost use Rattle.line_records.specs.Line.{line};

use line_columns::put_columns;
use text_digits::put;

// Writes a line. A field has four columns.
pub fn put_line(
    operation: u64,
    arrangement: u64,
    i: u64,
    d: u64,
    n: u64,
    m: u64,
    buf: &mut [u8],
    at: usize,
) -> usize
    requires operation_bound { (operation < 10000) × (arrangement < 10000) × (i < 10000) × (d < 10000) × (n < 10000) × (m < 10000) }
    requires room { Room buf.old at (line (instruction operation arrangement i d n m)) }
    ensures { Wrote buf.old at (line (instruction operation arrangement i d n m)) result buf.new }
{
    let a = put_columns(operation, buf, at);
    let b = put_columns(arrangement, buf, a);
    let c = put_columns(i, buf, b);
    let e = put_columns(d, buf, c);
    let f = put_columns(n, buf, e);
    let g = put_columns(m, buf, f);
    put(b"\n", buf, g)
}
