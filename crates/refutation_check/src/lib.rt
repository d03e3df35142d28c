// The check of a refutation of a literal of a graph. If it is accepted, the literal is false at every start (`AcceptedIsFalse`).
#![tactic(auto)]

ghost use Rattle.std.specs.Prelude.{true, cond, ◌≡◌, ◌+◌, ◌/◌, ◌<◌, eqb, length, drop};
ghost use Rattle.gates.specs.Graph.{inputs, graph_ok};
ghost use Rattle.gates.specs.Grow.{literal_of};
ghost use Rattle.refutation.specs.Refutation as refutation;
ghost use Rattle.refutation_hints.specs.Memory.{AtMost, Before, skipped, after_step, clauses_to, Ready};
ghost use Rattle.refutation_check.specs.Answer.{Answered, checked};

use facts::{Refusal, RefusedAt};
use gates::Literal;
use refutation_hints::{conflict, left_of, right_of, set_false, wide};

// The place after the list at `at`, which begins with its length; none if the words end before the list.
fn skip(words: &[u32], at: usize) -> Option<usize>
    ensures { result ≡ cond (refutation.whole (drop at words.now)) (Some (skipped words.now at)) None }
{
    if words.len() <= at {
        return None;
    }
    let n = wide(words[at]);
    if n < words.len() - at {
        return Some(at + n + 1);
    }
    None
}

// The place after step k, which begins at `at`; none if the step is refused.
fn step(
    graph: &[u64],
    count: usize,
    l: usize,
    words: &[u32],
    starts: &[u64],
    k: usize,
    at: usize,
    marks: &mut [u64],
) -> Option<usize>
    requires { Ready graph.now count l words.now starts.now k marks.old × Before k marks.old }
    ensures { (result ≡ cond (refutation.step_ok graph.now count (clauses_to words.now starts.now l k)
        (drop at words.now)) (Some (after_step words.now at)) None) × AtMost k marks.new }
{
    let hints = skip(words, at)?;
    let end = skip(words, hints)?;
    if !set_false(words, at + 1, hints, 2 * (4097 + count), marks, k as u64) {
        return None;
    }
    // literal 0 is the constant false
    marks[0] = k as u64;
    if !conflict(graph, count, l, words, starts, k, hints + 1, end, marks) {
        return None;
    }
    Some(end)
}

// Whether the graph has `count` gates, each after its operands.
pub fn graph_check(graph: &[u64], count: usize) -> bool
    ensures { result ≡ graph_ok graph.now count }
{
    if graph.len() < count {
        return false;
    }
    for (n, w) in graph[..count].iter().enumerate() {
        let limit = 2 * (4097 + n);
        if limit <= left_of(*w) {
            return false;
        }
        if limit <= right_of(*w) {
            return false;
        }
    }
    true
}

// The first refused step; none if the refutation is accepted.
fn refused_step(
    graph: &[u64],
    count: usize,
    l: usize,
    words: &[u32],
    starts: &mut [u64],
    marks: &mut [u64],
) -> Option<usize>
    requires { (graph_ok graph.now count ≡ true) × (l / 2 < inputs + count) × (length marks.old ≡ literal_of count)
        × (length words.now / 2 < length starts.old) }
    ensures { let first = refutation.refused_step graph.now count l words.now in result ≡ cond (eqb first 0) None (Some first) }
{
    marks.fill(0);
    let mut k = 1;
    let mut at = 0;
    // No `for`: a step ends the loop, and its end at a last k would be a case that cannot occur.
    loop {
        let Some(next) = step(graph, count, l, words, starts, k, at, marks) else {
            return Some(k);
        };
        if words[at] == 0 {
            return None;
        }
        starts[k] = at as u64;
        at = next;
        k += 1;
    }
}

// A refusal of no step in particular.
fn at_no_step(refusal: Refusal) -> RefusedAt
    ensures { result ≡ record { refusal = refusal; position = 0 } }
{
    RefusedAt {
        refusal,
        position: 0,
    }
}

// Checks a refutation of l. The lent memory is a mark for each literal of the graph, and one place for each step: half the number of words, plus 1.
// Refused are a graph with an operand that does not precede its gate (as a pool), a literal that is not of the graph (as a node), lent memory that is too
// short (as room), and a step, which is the position; the steps count from 1.
pub fn check_refutation(
    graph: &[u64],
    count: usize,
    l: Literal,
    words: &[u32],
    marks: &mut [u64],
    starts: &mut [u64],
) -> Result<(), RefusedAt>
    ensures { Answered graph.now count l.0 words.now (length marks.old) (length starts.old) (checked result) }
{
    if !graph_check(graph, count) {
        return Err(at_no_step(Refusal::Pool));
    }
    let literal = l.0 as usize;
    let variables = 4097 + count;
    if variables <= literal / 2 {
        return Err(at_no_step(Refusal::Node));
    }
    let limit = 2 * variables;
    if marks.len() < limit {
        return Err(at_no_step(Refusal::Room));
    }
    if starts.len() <= words.len() / 2 {
        return Err(at_no_step(Refusal::Room));
    }
    match refused_step(graph, count, literal, words, starts, &mut marks[..limit]) {
        None => Ok(()),
        Some(position) => Err(RefusedAt {
            refusal: Refusal::Step,
            position,
        }),
    }
}
