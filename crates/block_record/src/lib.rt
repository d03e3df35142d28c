// One record of a block: the reads of its registers, the lowering of its form, and the widening of its result.
// The Rust's lift_neon does this by statements: a register is read as a variable, and the result is assigned to one.
#![tactic(auto)]

ghost use Rattle.neon.specs.Refusal.{reserve, Legal};
ghost use Rattle.pool.specs.Growth.{Room};
ghost use Rattle.block_record_check.specs.Record.{instruction};
ghost use Rattle.block_record.specs.Step.{MapOk, Steps};

use block_map::RegisterMap;
use block_reads::{read_if, widen};

// The map after an accepted record, whose nodes are added to the pool.
pub fn lower_record(
    pool: &mut [u64],
    map: RegisterMap,
    operation: u64,
    arrangement: u64,
    i: u64,
    d: u64,
    n: u64,
    m: u64,
) -> RegisterMap
    requires room { Room pool.old map.count reserve }
    requires map_ok { MapOk map }
    requires legal { Legal (instruction operation arrangement i d n m) }
    ensures { Steps pool.old map pool.new result (instruction operation arrangement i d n m) }
{
    let code = neon::form_code(operation, arrangement);
    let full = neon_form::is_full(arrangement);
    let first = read_if(
        pool,
        map.count,
        true,
        neon_form::first_full(code),
        map.get(n),
    );
    let second = read_if(
        pool,
        first.count,
        neon_form::has_second(code),
        neon_form::second_full(code),
        map.get(m),
    );
    let old = read_if(
        pool,
        second.count,
        neon_form::reads_d(code),
        full,
        map.get(d),
    );
    let result = lower_neon::lower_form(
        pool,
        old.count,
        operation,
        arrangement,
        i,
        old.node,
        first.node,
        second.node,
    );
    let wide = widen(pool, result.count, full, result.node);
    map.set(d, wide.node, wide.count)
}
