// The refusals of one instruction: the pool, the form, the sources, the room.
#![tactic(auto)]

ghost use Rattle.std.specs.Prelude.{◌≡◌, true};
ghost use Rattle.facts.specs.Answer.{number_of};
ghost use Rattle.neon.specs.Op.{bits_if, full as full_of};
ghost use Rattle.pool.specs.Rules.{pool_ok};
ghost use Rattle.neon_form.specs.Code.{OfCode};
ghost use Rattle.instruction_check.specs.Number.{source_ok, sources_ok, instruction_number};

use facts::Refusal;
use pool::Node;
use pool_check::of_width;

// A wanted source is a node of its width, and one that is not wanted is none.
fn source_ok(pool: &[u64], count: usize, wanted: bool, full: bool, node: Node) -> bool
    requires { pool_ok pool.now count ≡ true }
    ensures { result ≡ source_ok pool.now count wanted (bits_if full) node.0 }
{
    if !wanted {
        return node.0 == Node::NONE;
    }
    if full {
        return of_width(pool, count, node, 128);
    }
    of_width(pool, count, node, 64)
}

// The sources of a form by its code; `full` is that of its arrangement.
fn sources_ok(pool: &[u64], count: usize, code: u64, full: bool, d: Node, n: Node, m: Node) -> bool
    requires { pool_ok pool.now count ≡ true }
    ensures { OfCode code (λ o v. full ≡ full_of v → result ≡ sources_ok pool.now count o v d.0 n.0 m.0) }
{
    source_ok(pool, count, neon_form::reads_d(code), full, d)
        & source_ok(pool, count, true, neon_form::first_full(code), n)
        & source_ok(
            pool,
            count,
            neon_form::has_second(code),
            neon_form::second_full(code),
            m,
        )
}

// Whether an instruction is refused: the pool, the form, the sources and the room, in this order.
pub fn instruction_number(
    pool: &[u64],
    count: usize,
    operation: u64,
    arrangement: u64,
    i: u64,
    d: Node,
    n: Node,
    m: Node,
) -> Result<(), Refusal>
    ensures { number_of result ≡ instruction_number pool.now count operation arrangement i d.0 n.0 m.0 }
{
    if !pool_check::pool_check(pool, count) {
        return Err(Refusal::Pool);
    }
    neon_form::form_number(operation, arrangement, i)?;
    let code = neon::form_code(operation, arrangement);
    let full = neon_form::is_full(arrangement);
    if !sources_ok(pool, count, code, full, d, n, m) {
        return Err(Refusal::Node);
    }
    if pool::places(pool) - count < Node::RESERVE {
        return Err(Refusal::Room);
    }
    Ok(())
}
