// The value of a term at a start.
ghost use Rattle.std.specs.Prelude.{get_or};
ghost use Rattle.evaluate.specs.Answer.{Answered};

// Returns the number; the value goes to `value`, the lowest word first, and the visits made to `visits`.
#[unsafe(no_mangle)]
pub extern "C" fn neon_value(
    pool: &[u64],
    count: usize,
    node: usize,
    start: &[u64; 64],
    allowance: u64,
    value: &mut [u64; 3],
    visits: &mut u64,
) -> u64
    ensures { Answered pool.now start.now count node allowance
        (record { number = result; low = get_or value.new 0 0; high = get_or value.new 1 0; top = get_or value.new 2 0; visits = visits.new }) }
{
    match evaluate::evaluate(pool, count, node, start, allowance) {
        Ok(term) => {
            *value = [term.value.low, term.value.high, term.value.top];
            *visits = term.visits;
            0
        }
        Err(refusal) => {
            *value = [0; 3];
            *visits = 0;
            u64::from(refusal)
        }
    }
}
