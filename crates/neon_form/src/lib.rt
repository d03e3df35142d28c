// The form of an operation at an arrangement: whether the manual has it, and what its code says.
#![tactic(auto)]

ghost use Rattle.std.specs.Prelude.{◌≡◌, ◌≤◌};
ghost use Rattle.facts.specs.Answer.{number_of};
ghost use Rattle.neon.specs.Op.{arrangement_at, bits_of_lane, full};
ghost use Rattle.neon.specs.Form.{form, least, most, has_second, reads_d, first_full, second_full, by_element};
ghost use Rattle.neon.specs.Refusal.{form_number};
ghost use Rattle.neon_form.specs.Code.{OfCode};

use facts::Refusal;

// The bits of a destination lane.
pub fn lane_bits(arrangement: u64) -> u64
    requires { arrangement ≤ 6 }
    ensures { result ≡ bits_of_lane (arrangement_at arrangement) }
{
    match arrangement {
        0 => 8,
        1 => 8,
        2 => 16,
        3 => 16,
        4 => 32,
        5 => 32,
        _ => 64,
    }
}

// Whether the view has 128 bits.
pub fn is_full(arrangement: u64) -> bool
    requires { arrangement ≤ 6 }
    ensures { result ≡ full (arrangement_at arrangement) }
{
    match arrangement {
        0 => false,
        1 => true,
        2 => false,
        3 => true,
        4 => false,
        5 => true,
        _ => true,
    }
}

// Whether a form code has a second source.
pub fn has_second(code: u64) -> bool
    ensures { OfCode code (λ o v. result ≡ has_second o) }
{
    code / 8 % 2 == 1
}

// Whether d is read.
pub fn reads_d(code: u64) -> bool
    ensures { OfCode code (λ o v. result ≡ reads_d o v) }
{
    code / 16 % 2 == 1
}

// Whether the first source is read at 128 bits.
pub fn first_full(code: u64) -> bool
    ensures { OfCode code (λ o v. result ≡ first_full (form o).lanes (full v)) }
{
    code / 32 % 2 == 1
}

// Whether the second source is.
pub fn second_full(code: u64) -> bool
    ensures { OfCode code (λ o v. result ≡ second_full (form o).lanes (by_element o) (full v)) }
{
    code / 64 % 2 == 1
}

// Whether the second source is one element.
pub fn by_element(code: u64) -> bool
    ensures { OfCode code (λ o v. result ≡ by_element o) }
{
    code % 8 == 4
}

// The least immediate.
pub fn least_immediate(code: u64) -> u64
    ensures { OfCode code (λ o v. result ≡ least o) }
{
    if code % 8 == 3 { 1 } else { 0 }
}

// The largest, at lanes of so many bits.
pub fn most_immediate(code: u64, bits: u64) -> u64
    requires { (8 ≤ bits) × (bits ≤ 64) }
    ensures { OfCode code (λ o v. result ≡ most o bits) }
{
    let row = code % 8;
    match row {
        1 => 0,
        2 => bits - 1,
        3 => bits,
        _ => 256 / bits - 1,
    }
}

// The first of operation, form and immediate that the manual has not.
pub fn form_number(operation: u64, arrangement: u64, i: u64) -> Result<(), Refusal>
    ensures { number_of result ≡ form_number operation arrangement i 0 }
{
    if operation < 1 {
        return Err(Refusal::Operation);
    }
    if 67 < operation {
        return Err(Refusal::Operation);
    }
    let code = neon::form_code(operation, arrangement);
    if code == 0 {
        return Err(Refusal::Form);
    }
    if i < least_immediate(code) {
        return Err(Refusal::Immediate);
    }
    if most_immediate(code, lane_bits(arrangement)) < i {
        return Err(Refusal::Immediate);
    }
    Ok(())
}
