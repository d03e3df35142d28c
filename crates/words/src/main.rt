// Lists A64 words: standard input has them as raw bytes, little endian, as `objcopy -O binary` gives; standard output gets the record of
// each in columns, a line each. A word that encodes none of our forms is named on standard error, with its position and its eight digits,
// and so is a last word that is broken. What a word means is the library's, `words_lists`.
#![tactic(auto)]

ghost use Rattle.std.specs.Prelude.{◌≡◌, ◌+◌, ◌*◌, ◌/◌, ◌≤◌, length, take};

use line_input::say_failure;

// A word that encodes none of our forms.
fn name(rt: &impl Eprint, position: u64, w: u64) {
    let _ = eprintln!(rt; "words: word {position} is none of our forms: {w:08x}");
}

// A last word of fewer than four bytes.
fn name_broken(rt: &impl Eprint, position: u64, bytes: u64) {
    let _ = eprintln!(rt; "words: word {position} is broken: bytes {bytes}");
}

// Fills the buffer from standard input, and answers how many bytes there are: fewer only where the input ends or cannot be read.
fn fill(rt: &(impl Input + Eprint + AllocGlobal), input: &mut [u8]) -> usize
    ensures { (result ≤ length input.new) × (result ≡ length (take result input.new)) }
{
    let filled = line_input::fill(&mut rt.reader(), input, 0);
    if let Some(error) = filled.error {
        say_failure(rt, "words", error);
    }
    filled.end
}

// Writes the lines of the words to `out`, and names those that have none. The first word has the position `first`.
fn list(rt: &impl Eprint, bytes: &[u8], first: u64, out: &mut [u8]) -> usize
    requires { 25 * (length bytes.now / 4) ≤ length out.old }
    ensures { (result ≤ length out.new) × (result ≡ length (take result out.new)) }
{
    let mut end = 0;
    for j in 0..bytes.len() / 4 {
        let w = words_lists::word_at(bytes, j);
        let next = words_lists::list_word(w, out, end);
        if next == end {
            name(rt, first.wrapping_add(j as u64), w);
        }
        end = next;
    }
    end
}

fn write(rt: &(impl Print + Eprint + AllocGlobal), lines: &[u8]) {
    if let Err(error) = rt.write_all(lines) {
        say_failure(rt, "words", error);
    }
}

// Lists the words that standard input has next, as many as the buffer holds, and answers how many bytes they are.
fn turn(
    rt: &(impl Input + Print + Eprint + AllocGlobal),
    input: &mut [u8],
    first: u64,
    out: &mut [u8],
) -> usize
    requires { 25 * (length input.old / 4) ≤ length out.old }
{
    let n = fill(rt, input);
    let end = list(rt, &input[..n], first, out);
    write(rt, &out[..end]);
    if 0 < n % 4 {
        name_broken(rt, first.wrapping_add((n / 4) as u64), (n % 4) as u64);
    }
    n
}

// A proved loop has to end, and nothing says that the input does: the turns are counted to a number that no run uses up.
fn run(rt: &(impl Input + Print + Eprint + AllocGlobal), input: &mut [u8], out: &mut [u8])
    requires { 25 * (length input.old / 4) ≤ length out.old }
{
    let mut first = 0u64;
    for _ in 0..u64::MAX {
        let n = turn(rt, input, first, out);
        if n < input.len() {
            break;
        }
        first = first.wrapping_add((n / 4) as u64);
    }
}

fn main(rt: HostRuntime) {
    let mut input = [0u8; 65536];
    let mut out = [0u8; 409600];
    run(&rt, &mut input, &mut out);
}
