// A gate of two literals: one that a hash table leads to, or a new one.
ghost use Rattle.std.specs.Prelude.{◌&&◌, ◌*◌, ◌≤◌, ◌<◌, length, IfSome};
ghost use Rattle.gates.specs.Graph.{truth};
ghost use Rattle.gates.specs.Grow.{Room, Builds, Under};
ghost use Rattle.gates_build.specs.Find.{Finds};

use crate::Made;

// The places of the table that are looked at for one gate.
const PROBES: usize = 512;

// A place of a table of so many that goes by a gate's word.
fn bucket(word: u64, size: usize) -> usize
    requires { 0 < size }
    ensures { result < size }
{
    let left = word % 4294967296 * 2654435769 / 32768;
    let right = word / 4294967296 * 2246822519 / 131072;
    let mixed = (left ^ right) % 4294967296 * 3266489917;
    (mixed / 65536) as usize % size
}

// The place after it, the first one after the last.
fn following(slot: usize, size: usize) -> usize
    requires { slot < size }
    ensures { result < size }
{
    if slot + 1 < size {
        return slot + 1;
    }
    0
}

// The gate that an entry of a table leads to, if that has this word and comes after the literal b. An entry is one more than a gate, or anything.
fn gate_of(graph: &[u64], count: usize, entry: u64, word: u64, b: u64) -> Option<usize>
    requires { (count ≤ length graph.now) × (b < 4294967296) × (0 < entry) }
    ensures { IfSome result (λ r. (r < count) × Finds graph.now count word b r) }
{
    if entry <= count as u64 {
        let gate = (entry - 1) as usize;
        if graph[gate] == word {
            if b / 2 < 4096 + entry {
                return Some(gate);
            }
        }
    }
    None
}

// A gate with this word that comes after the literal b, as far as the table leads to one.
fn find(graph: &[u64], count: usize, table: &[u64], word: u64, b: u64) -> Option<usize>
    requires { (count ≤ length graph.now) × (b < 4294967296) }
    ensures { IfSome result (λ r. (r < count) × Finds graph.now count word b r) }
{
    let size = table.len();
    if size == 0 {
        return None;
    }
    let mut slot = bucket(word, size);
    for _ in 0..PROBES {
        let entry = table[slot];
        if entry == 0 {
            return None;
        }
        let gate = gate_of(graph, count, entry, word, b);
        if gate.is_some() {
            return gate;
        }
        slot = following(slot, size);
    }
    None
}

// Puts an entry into the first free place of those that are looked at for the word, or into the first of them if none is free.
fn keep(table: &mut [u64], word: u64, entry: u64) {
    let size = table.len();
    if size == 0 {
        return;
    }
    let first = bucket(word, size);
    let mut slot = first;
    for _ in 0..PROBES {
        if table[slot] == 0 {
            table[slot] = entry;
            return;
        }
        slot = following(slot, size);
    }
    table[first] = entry;
}

// The gate of two literals, none of them a constant, the smaller one first: found, or made.
fn gate(graph: &mut [u64], count: usize, table: &mut [u64], a: u64, b: u64) -> Made
    requires { Room graph.old count 1 × (a ≤ b) × Under b count }
    ensures { Builds graph.old count graph.new result.literal result.count 1
        (λ start. truth start graph.old a && truth start graph.old b) }
{
    let word = a + 4294967296 * b;
    if let Some(found) = find(graph, count, table, word, b) {
        return Made {
            literal: 2 * (4097 + found as u64),
            count,
        };
    }
    graph[count] = word;
    keep(table, word, count as u64 + 1);
    Made {
        literal: 2 * (4097 + count as u64),
        count: count + 1,
    }
}

// The conjunction of two literals, the smaller one first.
pub fn and_ordered(graph: &mut [u64], count: usize, table: &mut [u64], a: u64, b: u64) -> Made
    requires { Room graph.old count 1 × (a ≤ b) × Under b count }
    ensures { Builds graph.old count graph.new result.literal result.count 1
        (λ start. truth start graph.old a && truth start graph.old b) }
{
    if a == 0 {
        return Made { literal: 0, count };
    }
    if (a == 1) | (a == b) {
        return Made { literal: b, count };
    }
    if a / 2 == b / 2 {
        return Made { literal: 0, count };
    }
    gate(graph, count, table, a, b)
}
