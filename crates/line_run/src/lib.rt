// The lines of an input that comes in pieces, and the answers to them in a buffer: everything between the program's reads and writes.
// The Rust has no counterpart.
#![tactic(auto)]

ghost use Rattle.std.specs.Prelude.{◌≤◌, length};
ghost use Rattle.pool.specs.Node.{places};
ghost use Rattle.line.specs.Output.{Rooms};
ghost use Rattle.line_run.specs.Going.{Goes, Ends};

use line_output::ANSWER_ROOM;

// How far it came: the bytes taken of the piece, the bytes held of a line whose end is still to come, the bytes put into the output.
#[derive(Clone, Copy)]
pub struct Progress {
    pub taken: usize,
    pub line: usize,
    pub output: usize,
}

// Answers the lines that end in a piece of the input, from its byte `from` on, while the output has room for an answer. Of a line
// whose end is still to come `line` bytes were held before.
pub fn answer_lines(
    pool: &mut [u64],
    held: &mut [u8],
    line: usize,
    input: &[u8],
    from: usize,
    out: &mut [u8],
) -> Progress
    requires rooms { Rooms pool.old held.old out.old }
    requires line_in_bounds { line ≤ length held.old }
    ensures { Goes (places pool.old) held.old line input.now from result held.new out.new }
{
    let mut len = line;
    let mut output = 0;
    let mut next = from;
    // No `for`: the next place is the one that `gather` gives.
    while next < input.len() {
        if out.len() - output < ANSWER_ROOM {
            return Progress {
                taken: next,
                line: len,
                output,
            };
        }
        let g = line_pieces::gather(held, len, input, next);
        next = g.taken;
        len = g.len;
        if g.ended {
            output = line::answer_line(pool, &held[..len], out, output);
            len = 0;
        }
    }
    Progress {
        taken: next,
        line: len,
        output,
    }
}

// At the end of the input: answers a last line that no newline ends. The bytes put into the output.
pub fn answer_last(pool: &mut [u64], held: &[u8], line: usize, out: &mut [u8]) -> usize
    requires rooms { Rooms pool.old held.now out.old }
    requires line_in_bounds { line ≤ length held.now }
    ensures { Ends (places pool.old) held.now line result out.new }
{
    if line == 0 {
        return 0;
    }
    line::answer_line(pool, &held[..line], out, 0)
}
