// A routine as lines of document 01's columns.
ghost use Rattle.line_routine.specs.Routine.{LinesRead};

// Returns the number; how many records were read, and the position, go to `count` and `position`.
#[unsafe(no_mangle)]
pub extern "C" fn neon_read_lines(
    bytes: &[u8],
    records: &mut [u64],
    count: &mut usize,
    position: &mut usize,
) -> u64
    ensures { LinesRead bytes.now records.old (record { number = result; position = position.new; count = count.new }) records.new }
{
    let a = line_routine::read_lines(bytes, records);
    *count = a.count;
    *position = a.position;
    a.number
}
