// Decimal digits from the first to the last, by comparing and subtracting: no division, no multiplication. For numbers of up to five
// digits, as nodes have; `text_digits` writes longer ones.
#![tactic(auto)]

ghost use Rattle.std.specs.Prelude.{◌≡◌, ◌+◌, ◌*◌, ◌≤◌, ◌<◌, length};
ghost use Rattle.terms.specs.Display.{digit, decimal};
ghost use Rattle.text_digits.specs.Writing.{Room, Wrote};

use text_digits::{decimal_digit, put_decimal};

// The digit of a place, and what is left of the number below it.
#[derive(Clone, Copy)]
struct Place {
    digit: u64,
    rest: u64,
}

// d units into the digit, if the rest has them.
fn step(p: Place, unit: u64, d: u64) -> Place
    requires unit_bound { (unit ≤ 10000) × (d ≤ 8) × (p.digit ≤ 16) }
    requires rest_bound { p.rest < 2 * (unit * d) }
    ensures { (unit * result.digit + result.rest ≡ unit * p.digit + p.rest) × (result.rest < unit * d) × (result.digit ≤ p.digit + d) }
{
    let size = unit * d;
    if p.rest < size {
        return p;
    }
    Place {
        digit: p.digit + d,
        rest: p.rest - size,
    }
}

// The digit of a place: eight units, four, two and one make at most 15, and x has fewer than ten.
fn place_of(x: u64, unit: u64) -> Place
    requires { (x < 10 * unit) × (unit ≤ 10000) }
    ensures { (unit * result.digit + result.rest ≡ x) × (result.rest < unit) }
{
    let a = step(Place { digit: 0, rest: x }, unit, 8);
    let b = step(a, unit, 4);
    let c = step(b, unit, 2);
    step(c, unit, 1)
}

// Decimal digits: of each unit that x has, and the ones.
pub fn put_number(x: u64, buf: &mut [u8], at: usize) -> usize
    requires { Room buf.old at (decimal x) }
    ensures { Wrote buf.old at (decimal x) result buf.new }
{
    if 100000 <= x {
        return put_decimal(x, buf, at);
    }
    let mut rest = x;
    let mut end = at;
    for unit in [10000, 1000, 100, 10] {
        if unit <= x {
            let place = place_of(rest, unit);
            buf[end] = decimal_digit(place.digit);
            rest = place.rest;
            end += 1;
        }
    }
    buf[end] = decimal_digit(rest);
    end + 1
}

// How many digits a number of up to five digits has.
pub fn number_length(x: u64) -> usize
    requires { x < 100000 }
    ensures { (result ≡ length (decimal x)) × (result ≤ 5) }
{
    if x < 100 {
        return if x < 10 { 1 } else { 2 };
    }
    if x < 1000 {
        return 3;
    }
    if x < 10000 { 4 } else { 5 }
}
