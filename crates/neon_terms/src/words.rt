// Lists of A64 words and of records (document 02, S-7).
ghost use Rattle.words_lists.specs.Words.{WordsRead, WordsWritten};

// Returns the number; how many records were read, and the position, go to `count` and `position`.
#[unsafe(no_mangle)]
pub extern "C" fn neon_read_words(
    bytes: &[u8],
    records: &mut [u64],
    count: &mut usize,
    position: &mut usize,
) -> u64
    ensures { WordsRead bytes.now records.old (record { number = result; position = position.new; count = count.new }) records.new }
{
    let a = words_lists::read_words(bytes, records);
    *count = a.count;
    *position = a.position;
    a.number
}

// Returns the number; how many words were written, and the position, go to `count` and `position`.
#[unsafe(no_mangle)]
pub extern "C" fn neon_write_words(
    records: &[u64],
    bytes: &mut [u8],
    count: &mut usize,
    position: &mut usize,
) -> u64
    ensures { WordsWritten records.now bytes.old (record { number = result; position = position.new; count = count.new }) bytes.new }
{
    let a = words_lists::write_words(records, bytes);
    *count = a.count;
    *position = a.position;
    a.number
}
