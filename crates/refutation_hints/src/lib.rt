// The hints of a step: what is left of each cited clause, and whether the hints lead to a conflict. A literal is set false by a mark.
#![tactic(auto)]

ghost use Rattle.std.specs.Prelude.{true, cond, [], ◌∷◌, ◌≡◌, ◌+◌, ◌≤◌, ◌<◌, length, get_or, drop};
ghost use Rattle.std.proofs.Math.Seq.{slice};
ghost use Rattle.gates.specs.Graph.{inputs, variable, left_of, right_of};
ghost use Rattle.gates.specs.Grow.{negated, literal_of};
ghost use Rattle.refutation.specs.Refutation as refutation;
ghost use Rattle.refutation_hints.specs.Memory.{marked, AtMost, Marking, clauses_to, Ready};

pub fn wide(x: u32) -> usize
    ensures { (result ≡ x) × (result < 4294967296) }
{
    x as usize
}

pub fn left_of(w: u64) -> usize
    ensures { result ≡ left_of w }
{
    (w % 4294967296) as usize
}

pub fn right_of(w: u64) -> usize
    ensures { result ≡ right_of w }
{
    (w / 4294967296) as usize
}

// The negation of a literal.
fn negate(l: usize) -> usize
    ensures { result ≡ negated l }
{
    l / 2 * 2 + (1 - l % 2)
}

// What is left of a clause with one more literal, l: 0 for nothing, l + 2 for l alone, 1 for different literals.
fn look(marks: &[u64], k: u64, left: usize, l: usize) -> usize
    requires { l < length marks.now }
    ensures { result ≡ cond (marked marks.now k l) left (refutation.kept left l) }
{
    if marks[l] == k {
        return left;
    }
    if left == 0 {
        return l + 2;
    }
    if left == l + 2 {
        return left;
    }
    1
}

// What is left of the clause at `at` in the words.
fn left_of_list(words: &[u32], at: usize, marks: &[u64], k: u64) -> usize
    requires { (refutation.whole (drop at words.now) ≡ true)
        × (refutation.all_below (length marks.now) (refutation.listed (drop at words.now)) ≡ true) }
    ensures { result ≡ refutation.remains (marked marks.now k) 0 (refutation.listed (drop at words.now)) }
{
    let end = at + wide(words[at]) + 1;
    let mut left = 0;
    for word in &words[at + 1..end] {
        left = look(marks, k, left, wide(*word));
    }
    left
}

fn left_of_two(marks: &[u64], k: u64, a: usize, b: usize) -> usize
    requires { (a < length marks.now) × (b < length marks.now) }
    ensures { result ≡ refutation.remains (marked marks.now k) 0 (a ∷ b ∷ []) }
{
    look(marks, k, look(marks, k, 0, a), b)
}

fn left_of_three(marks: &[u64], k: u64, a: usize, b: usize, c: usize) -> usize
    requires { (a < length marks.now) × (b < length marks.now) × (c < length marks.now) }
    ensures { result ≡ refutation.remains (marked marks.now k) 0 (a ∷ b ∷ c ∷ []) }
{
    look(marks, k, look(marks, k, look(marks, k, 0, a), b), c)
}

// What is left of a clause of gate n.
fn left_of_gate(graph: &[u64], n: usize, part: usize, marks: &[u64], k: u64) -> usize
    requires n_in_bounds { (n < length graph.now) × (literal_of n + 1 < length marks.now) }
    requires n_bound { (variable (left_of (get_or graph.now n 0)) < inputs + n) × (variable (right_of (get_or graph.now n 0)) < inputs + n) }
    ensures { result ≡ refutation.remains (marked marks.now k) 0 (refutation.gate_clause graph.now n part) }
{
    let w = graph[n];
    let gate = 2 * (4097 + n);
    if part == 0 {
        return left_of_two(marks, k, gate + 1, left_of(w));
    }
    if part == 1 {
        return left_of_two(marks, k, gate + 1, right_of(w));
    }
    left_of_three(marks, k, gate, negate(left_of(w)), negate(right_of(w)))
}

// What is left of the clause that hint v cites; 1 if there is no such clause.
fn left_of_hint(
    graph: &[u64],
    count: usize,
    l: usize,
    words: &[u32],
    starts: &[u64],
    k: usize,
    marks: &[u64],
    v: usize,
) -> usize
    requires { Ready graph.now count l words.now starts.now k marks.now }
    ensures { result ≡ refutation.cited graph.now count (clauses_to words.now starts.now l k)
        (marked marks.now k) v }
{
    let n = v / 4;
    let part = v % 4;
    let stamp = k as u64;
    if part == 3 {
        if k <= n {
            return 1;
        }
        if n == 0 {
            return look(marks, stamp, 0, l);
        }
        return left_of_list(words, starts[n] as usize, marks, stamp);
    }
    if count <= n {
        return 1;
    }
    left_of_gate(graph, n, part, marks, stamp)
}

// Sets the literals of a clause false; answers whether all of them are below `limit`, which those of the graph are.
pub fn set_false(
    words: &[u32],
    from: usize,
    to: usize,
    limit: usize,
    marks: &mut [u64],
    k: u64,
) -> bool
    requires { (from ≤ to) × (to ≤ length words.now) × (limit ≤ length marks.old) × AtMost k marks.old }
    ensures { Marking (slice from to words.now) limit marks.old k result marks.new }
{
    for word in &words[from..to] {
        let l = wide(*word);
        if limit <= l {
            return false;
        }
        marks[l] = k;
    }
    true
}

// Whether the hints lead to a conflict.
pub fn conflict(
    graph: &[u64],
    count: usize,
    l: usize,
    words: &[u32],
    starts: &[u64],
    k: usize,
    from: usize,
    to: usize,
    marks: &mut [u64],
) -> bool
    requires { Ready graph.now count l words.now starts.now k marks.old × (from ≤ to) × (to ≤ length words.now) × AtMost k marks.old }
    ensures { (result ≡ refutation.conflict graph.now count (clauses_to words.now starts.now l k)
        (marked marks.old k) (slice from to words.now)) × AtMost k marks.new }
{
    for hint in &words[from..to] {
        let left = left_of_hint(graph, count, l, words, starts, k, marks, wide(*hint));
        if left == 0 {
            return true;
        }
        if left == 1 {
            return false;
        }
        marks[negate(left - 2)] = k as u64;
    }
    false
}
