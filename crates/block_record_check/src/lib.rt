// A record of a block and its refusals (document 01, "The numbers"). A record is six numbers: operation, arrangement, i, d, n, m. The
// Rust has no counterpart: it lowers one instruction at a time.
#![tactic(auto)]

ghost use Rattle.std.specs.Prelude.{◌≡◌, ◌+◌, ◌*◌, ◌≤◌, length};
ghost use Rattle.facts.specs.Answer.{number_of};
ghost use Rattle.neon.specs.Op.{bits_of_lane};
ghost use Rattle.neon.specs.Refusal.{most_m, record_number};
ghost use Rattle.neon_form.specs.Code.{OfCode};
ghost use Rattle.block_record_check.specs.Record.{record_at};

use facts::Refusal;
use neon::Instruction;

// Record j of a list of flat numbers.
pub fn record_at(records: &[u64], j: usize) -> Instruction
    requires { 6 * j + 6 ≤ length records.now }
    ensures { result ≡ record_at records.now j }
{
    let at = 6 * j;
    Instruction {
        operation: records[at],
        arrangement: records[at + 1],
        i: records[at + 2],
        d: records[at + 3],
        n: records[at + 4],
        m: records[at + 5],
    }
}

// The last register that m may name, by the form code and the bits of a lane: 0 if there is no second source, and 15 for an
// element of 16 bits.
fn most_m(code: u64, bits: u64) -> u64
    ensures { OfCode code (λ o v. bits ≡ bits_of_lane v → result ≡ most_m o v) }
{
    let short = neon_form::by_element(code) & (bits / 2 == 16);
    let last = if short { 15 } else { 31 };
    if neon_form::has_second(code) { last } else { 0 }
}

// Whether a record is refused: its operation, form and immediate in this order, then its registers.
pub fn record_number(c: Instruction) -> Result<(), Refusal>
    ensures { number_of result ≡ record_number c }
{
    neon_form::form_number(c.operation, c.arrangement, c.i)?;
    let code = neon::form_code(c.operation, c.arrangement);
    let most = most_m(code, neon_form::lane_bits(c.arrangement));
    if (c.d <= 31) & (c.n <= 31) & (c.m <= most) {
        return Ok(());
    }
    Err(Refusal::Register)
}
