// The text of a node that keeps the pool's rules, if the buffer has room for it: `Display` of the Rust's expr.rs, of the
// term that the node unfolds to.
#![tactic(auto)]

ghost use Rattle.std.specs.Prelude.{◌≡◌, ◌+◌, ◌≤◌, length};
ghost use Rattle.std.proofs.lemmas.List.Edits.{sets};
ghost use denote.Ref.{at_last};
ghost use Rattle.pool.specs.Node.{width_at};
ghost use Rattle.text_digits.specs.Writing.{Room};
ghost use Rattle.text_parts.specs.Text.{text, Ready};
ghost use Rattle.text_write.specs.Behind.{WroteBehind};

use pool::Node;
use pool::words::{Kind, kind_of, width_of};
use pool_fields::{first, left, right, second};
use text_digits::put;
use text_operators::put_between;
use text_parts::{put_end, put_leaf, put_open};

// Writes a vector term. Pool and buffer are behind a second reference, so that a call passes a pointer on: a slice
// would be copied to a place of its own in the frame of each level of nesting, and for each call.
#[cycle(write_condition_write_term)]
fn write_term(p: &&[u64], n: Node, buf: &mut &mut [u8], at: usize) -> usize
    requires ready { Ready p.now.now n.0 × (1 ≤ width_at p.now.now n.0) }
    requires room { Room buf.old.now at (text p.now.now n.0) }
    ensures { WroteBehind buf.old at (text p.now.now n.0) result buf.new }
{
    let k = kind_of(*p, n);
    if k < Kind::ADD {
        return put_leaf(*p, n, k, *buf, at);
    }
    let mut i = put_open(k, *buf, at);
    if k == Kind::ITE {
        let j = write_condition(p, first(*p, n), buf, i);
        i = put(b", ", *buf, j);
    }
    let j = write_term(p, left(*p, n), buf, i);
    // two tests: of one test for both the compiler makes six instructions at each node
    if k == Kind::EXTRACT {
        return put_end(*p, n, k, *buf, j);
    }
    if Kind::ZERO_EXTEND <= k {
        return put_end(*p, n, k, *buf, j);
    }
    let l = put_between(k, *buf, j);
    let m = write_term(p, right(*p, n), buf, l);
    put(b")", *buf, m)
}

// Writes a condition: a comparison of two vector terms. The kind is read at the place that needs it, and so takes no room in the
// frame during the first call.
#[cycle(write_condition_write_term)]
fn write_condition(p: &&[u64], n: Node, buf: &mut &mut [u8], at: usize) -> usize
    requires ready { Ready p.now.now n.0 × (width_at p.now.now n.0 ≡ 0) }
    requires room { Room buf.old.now at (text p.now.now n.0) }
    ensures { WroteBehind buf.old at (text p.now.now n.0) result buf.new }
{
    let i = put(b"(", *buf, at);
    let j = write_term(p, first(*p, n), buf, i);
    let l = put_between(kind_of(*p, n), *buf, j);
    let m = write_term(p, second(*p, n), buf, l);
    put(b")", *buf, m)
}

// Writes a node of either sort, says the place after it, and hands the buffer back.
pub fn write_node<'a>(
    p: &[u64],
    n: Node,
    buf: &'a mut [u8],
    at: usize,
    end: &mut usize,
) -> &'a mut [u8]
    requires ready { Ready p.now n.0 }
    requires room { Room buf.old at (text p.now n.0) }
    ensures value { result ≡ at_last buf.entry (sets buf.old at (text p.now n.0)) }
    ensures end_after { end.new ≡ at + length (text p.now n.0) }
{
    let mut b = buf;
    if width_of(p, n) == 0 {
        *end = write_condition(&p, n, &mut b, at);
    } else {
        *end = write_term(&p, n, &mut b, at);
    }
    let written = b;
    written
}
