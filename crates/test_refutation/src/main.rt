// The refutation of a miter, (a xor b) xor (b xor a) for bit 0 of registers 0 and 1, and neighbours of it that are refused. A line each: the number
// and the step.
#![tactic(auto)]

use gates::Literal;
use std::io;

const MITER: Literal = Literal(8210);

// Gates 0 to 2 are a xor b, 3 to 5 b xor a, 6 to 8 their xor, whose literal is 8210.
const GRAPH: [u64; 9] = [
    1108101562370,
    1112396529667,
    35205846933507,
    8589934850,
    12884902147,
    35231616737289,
    35235911704582,
    35240206671879,
    35257386541071,
];

// Seven steps: for each, how many literals, the literals, how many hints, the hints. 2 is a, 258 is b.
const STEPS: [u32; 62] = [
    2, 259, 3, 7, 3, 2, 14, 33, 8, 20, 30, // not b, not a
    2, 258, 3, 9, 3, 4, 17, 1, 12, 32, 10, 22, 26, // b, not a
    1, 3, 2, 7, 11, // not a
    2, 259, 2, 9, 3, 0, 13, 5, 16, 32, 10, 22, 26, // not b, a
    2, 258, 2, 7, 3, 6, 18, 33, 9, 21, 30, // b, a
    1, 2, 2, 19, 23, // a
    0, 2, 15, 27, // empty
];

// The first `used` words, with so many marks and starts.
fn attempt(
    rt: &impl Print,
    l: Literal,
    words: &[u32],
    used: usize,
    marks: usize,
    starts: usize,
) -> io::Result<()> {
    let graph = GRAPH;
    let mut m = [7u64; 8212];
    let mut s = [7u64; 100];
    if words.len() < used {
        return Ok(());
    }
    if 8212 < marks {
        return Ok(());
    }
    if 100 < starts {
        return Ok(());
    }
    let answer = refutation_check::check_refutation(
        &graph,
        9,
        l,
        &words[..used],
        &mut m[..marks],
        &mut s[..starts],
    );
    match answer {
        Ok(()) => println!(rt; "0 0"),
        Err(e) => println!(rt; "{} {}", u64::from(e.refusal), e.position),
    }
}

// The same words but for one.
fn changed(rt: &impl Print, at: usize, word: u32) -> io::Result<()> {
    let mut words = STEPS;
    words[at % 62] = word;
    attempt(rt, MITER, &words, 62, 8212, 32)
}

fn main(rt: HostRuntime) -> io::Result<()> {
    let words = STEPS;
    attempt(&rt, MITER, &words, 62, 8212, 32)?;
    // the opposite literal; a literal of no gate
    attempt(&rt, Literal(8211), &words, 62, 8212, 32)?;
    attempt(&rt, Literal(8212), &words, 62, 8212, 32)?;
    // without the last word; without the last step
    attempt(&rt, MITER, &words, 61, 8212, 32)?;
    attempt(&rt, MITER, &words, 58, 8212, 32)?;
    // a mark too few; a start too few
    attempt(&rt, MITER, &words, 62, 8211, 32)?;
    attempt(&rt, MITER, &words, 62, 8212, 31)?;
    // a literal that is not of the graph; a length past the end; a hint of the step itself; of no gate; a clause that leaves two
    changed(&rt, 1, 8212)?;
    changed(&rt, 11, 4294967295)?;
    changed(&rt, 27, 15)?;
    changed(&rt, 5, 36)?;
    changed(&rt, 4, 0)
}
