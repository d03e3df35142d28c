// A line that comes in pieces. The Rust has no counterpart.
#![tactic(auto)]

ghost use Rattle.std.specs.Prelude.{drop};
ghost use Rattle.line_pieces.specs.Pieces.{Gathers};

// What was taken of some bytes: the place after it, how many bytes of the line are held, and whether a newline ended the line.
#[derive(Clone, Copy)]
pub struct Gathered {
    pub taken: usize,
    pub len: usize,
    pub ended: bool,
}

// Takes bytes of a line, up to its newline. A line that comes in pieces is held between them; of a line that is longer than the
// room for it only so many bytes are kept.
pub fn gather(held: &mut [u8], len: usize, input: &[u8], from: usize) -> Gathered
    ensures { Gathers held.old len (drop from input.now) from result held.new }
{
    let mut n = len;
    for i in from..input.len() {
        let b = input[i];
        if b == 10 {
            return Gathered {
                taken: i + 1,
                len: n,
                ended: true,
            };
        }
        if n < held.len() {
            held[n] = b;
            n += 1;
        }
    }
    Gathered {
        taken: input.len().max(from),
        len: n,
        ended: false,
    }
}
