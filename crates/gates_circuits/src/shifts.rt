// Shifts by an amount that is a word: a barrel shifter, a stage for each bit of the amount that matters.
ghost use Rattle.std.specs.Prelude.{true, false, cond, eqb, ◌≡◌, ◌+◌, ◌*◌, ◌≤◌, length};
ghost use Rattle.terms.specs.Value.{bvshl, bvlshr, bvashr};
ghost use Rattle.gates.specs.Graph.{truth};
ghost use Rattle.gates.specs.Grow.{Room, Under};
ghost use Rattle.gates_words.specs.Number.{number};
ghost use Rattle.gates_words.specs.Words.{Low};
ghost use Rattle.gates_circuits.specs.Makes.{Makes, Two};
ghost use Rattle.gates_circuits.specs.Shift.{Moves, Reaches, Stages, moved_if, moved, filled_with};

use gates_words::bitwise::mux;
use gates_words::compare::equal;
use gates_words::copies::{copy, fill};

// The word at `out` moved s places up: the literal 0 comes in.
fn move_left(bits: &mut [u64], out: usize, s: usize, w: usize)
    requires { (s ≤ w) × (out + 2 * w ≤ length bits.old) }
    ensures { Moves bits.old bits.new true 0 out s w }
{
    fill(bits, 0, out + w, s);
    copy(bits, out, out + w + s, w - s);
}

// And s places down.
fn move_right(bits: &mut [u64], literal: u64, out: usize, s: usize, w: usize)
    requires { (s ≤ w) × (out + 2 * w ≤ length bits.old) }
    ensures { Moves bits.old bits.new false literal out s w }
{
    copy(bits, out + s, out + w, w - s);
    fill(bits, literal, out + w + (w - s), s);
}

// The word at `out` moved s places, up or down.
fn move_by(bits: &mut [u64], left: bool, literal: u64, out: usize, s: usize, w: usize)
    requires { (s ≤ w) × (out + 2 * w ≤ length bits.old) × (left ≡ true → literal ≡ 0) }
    ensures { Moves bits.old bits.new left literal out s w }
{
    if left {
        move_left(bits, out, s, w);
        return;
    }
    move_right(bits, literal, out, s, w);
}

// The word at `out`, moved s places if c holds.
fn stage(
    graph: &mut [u64],
    count: usize,
    table: &mut [u64],
    bits: &mut [u64],
    left: bool,
    literal: u64,
    c: u64,
    out: usize,
    s: usize,
    w: usize,
) -> usize
    requires room { Room graph.old count (3 * w) × (s ≤ w) × (out + 2 * w ≤ length bits.old) × (left ≡ true → literal ≡ 0) }
    requires under { Under literal count × Under c count × Low bits.old out w count }
    ensures { Makes graph.old count bits.old graph.new result bits.new out w (3 * w)
        (λ start. moved_if (truth start graph.old c) left (truth start graph.old literal) w
        (number start graph.old bits.old out w) s) }
{
    move_by(bits, left, literal, out, s, w);
    mux(graph, count, table, bits, c, out + w, out, out, w)
}

// How many bits of an amount count: those whose places, 1, 2, 4 .., are below the width.
fn stages_for(w: usize) -> usize
    requires { w ≤ 129 }
    ensures { Reaches w result }
{
    w.next_power_of_two().ilog2() as usize
}

// The word at `out` moved by the low n bits of the amount at b: 1, 2, 4 .. places.
fn stages(
    graph: &mut [u64],
    count: usize,
    table: &mut [u64],
    bits: &mut [u64],
    left: bool,
    literal: u64,
    b: usize,
    n: usize,
    out: usize,
    w: usize,
) -> usize
    requires room { Room graph.old count (24 * w) × (out + 2 * w ≤ length bits.old) × (left ≡ true → literal ≡ 0) × (w ≤ 129) × (b + w ≤ out) }
    requires under { Under literal count × Low bits.old out w count × Low bits.old b w count }
    requires reach { Reaches w n }
    ensures { Stages graph.old count bits.old graph.new result bits.new left literal b out w n }
{
    let mut all = count;
    for i in 0..n {
        let c = bits[b + i];
        all = stage(graph, all, table, bits, left, literal, c, out, 1 << i, w);
    }
    all
}

// The word at `out` if the n bits at b are 0, else the literal w times.
fn far(
    graph: &mut [u64],
    count: usize,
    table: &mut [u64],
    bits: &mut [u64],
    literal: u64,
    b: usize,
    n: usize,
    out: usize,
    w: usize,
) -> usize
    requires room { Room graph.old count (7 * w) × (out + 2 * w ≤ length bits.old) × (n ≤ w) × (b + n ≤ out) }
    requires under { Under literal count × Low bits.old out w count × Low bits.old b n count }
    ensures { Makes graph.old count bits.old graph.new result bits.new out w (7 * w)
        (λ start. cond (eqb (number start graph.old bits.old b n) 0)
        (number start graph.old bits.old out w) (filled_with (truth start graph.old literal) w)) }
{
    fill(bits, 0, out + w, n);
    let same = equal(graph, count, table, bits, b, out + w, n);
    fill(bits, literal, out + w, w);
    mux(
        graph,
        same.count,
        table,
        bits,
        same.literal,
        out,
        out + w,
        out,
        w,
    )
}

// The word a moved by the number of the word b.
fn shift(
    graph: &mut [u64],
    count: usize,
    table: &mut [u64],
    bits: &mut [u64],
    left: bool,
    literal: u64,
    a: usize,
    b: usize,
    out: usize,
    w: usize,
) -> usize
    requires room { Room graph.old count (31 * w) × (out + 2 * w ≤ length bits.old) × (left ≡ true → literal ≡ 0) × (w ≤ 129) × Under literal count }
    requires two { Two bits.old a b out w count }
    ensures { Makes graph.old count bits.old graph.new result bits.new out w (31 * w)
        (λ start. moved left (truth start graph.old literal) w
        (number start graph.old bits.old a w) (number start graph.old bits.old b w)) }
{
    copy(bits, a, out, w);
    let taken = stages_for(w);
    let near = stages(graph, count, table, bits, left, literal, b, taken, out, w);
    far(
        graph,
        near,
        table,
        bits,
        literal,
        b + taken,
        w - taken,
        out,
        w,
    )
}

pub fn shift_left(
    graph: &mut [u64],
    count: usize,
    table: &mut [u64],
    bits: &mut [u64],
    a: usize,
    b: usize,
    out: usize,
    w: usize,
) -> usize
    requires { Room graph.old count (31 * w) × (out + 2 * w ≤ length bits.old) × (w ≤ 129) × Two bits.old a b out w count }
    ensures { Makes graph.old count bits.old graph.new result bits.new out w (31 * w)
        (λ start. bvshl w (number start graph.old bits.old a w) (number start graph.old bits.old b w)) }
{
    shift(graph, count, table, bits, true, 0, a, b, out, w)
}

pub fn shift_right(
    graph: &mut [u64],
    count: usize,
    table: &mut [u64],
    bits: &mut [u64],
    a: usize,
    b: usize,
    out: usize,
    w: usize,
) -> usize
    requires { Room graph.old count (31 * w) × (out + 2 * w ≤ length bits.old) × (w ≤ 129) × Two bits.old a b out w count }
    ensures { Makes graph.old count bits.old graph.new result bits.new out w (31 * w)
        (λ start. bvlshr w (number start graph.old bits.old a w) (number start graph.old bits.old b w)) }
{
    shift(graph, count, table, bits, false, 0, a, b, out, w)
}

// The sign comes in at the top.
pub fn shift_right_signed(
    graph: &mut [u64],
    count: usize,
    table: &mut [u64],
    bits: &mut [u64],
    a: usize,
    b: usize,
    out: usize,
    w: usize,
) -> usize
    requires { Room graph.old count (31 * w) × (out + 2 * w ≤ length bits.old) × (w ≤ 129) × Two bits.old a b out w count × (1 ≤ w) }
    ensures { Makes graph.old count bits.old graph.new result bits.new out w (31 * w)
        (λ start. bvashr w (number start graph.old bits.old a w) (number start graph.old bits.old b w)) }
{
    let sign = bits[a + (w - 1)];
    shift(graph, count, table, bits, false, sign, a, b, out, w)
}
