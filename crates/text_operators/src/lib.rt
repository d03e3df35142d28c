// What `Display` of the Rust's expr.rs writes between two operands.
#![tactic(auto)]

ghost use Rattle.std.specs.Prelude.{◌≡◌, [], ◌∷◌, ◌≤◌, ◌<◌, length};
ghost use Rattle.text_digits.specs.Writing.{Room, Wrote};
ghost use Rattle.text_operators.specs.Between.{Joined, between_text};

use pool::words::Kind;
use text_digits::put;

// The one character of the operators 3 to 8.
fn sign(k: u64) -> u8
    requires { (3 ≤ k) × (k < 9) }
    ensures { between_text k ≡ 32 ∷ result ∷ 32 ∷ [] }
{
    match k {
        Kind::ADD => b'+',
        Kind::SUB => b'-',
        Kind::MUL => b'*',
        Kind::AND => b'&',
        Kind::OR => b'|',
        _ => b'^',
    }
}

// The operator between two operands, and the comma of an Ite's arms and of a Concat.
pub fn put_between(k: u64, buf: &mut [u8], at: usize) -> usize
    requires { Joined k × Room buf.old at (between_text k) }
    ensures { Wrote buf.old at (between_text k) result buf.new }
{
    if k < Kind::SHL {
        return put(&[b' ', sign(k), b' '], buf, at);
    }
    match k {
        Kind::SHL => put(b" << ", buf, at),
        Kind::LSHR => put(b" >>u ", buf, at),
        Kind::ASHR => put(b" >>s ", buf, at),
        Kind::EQ => put(b" == ", buf, at),
        Kind::ULT => put(b" <u ", buf, at),
        Kind::SLT => put(b" <s ", buf, at),
        _ => put(b", ", buf, at),
    }
}

// The length of an operator. A constant table would be copied to the frame of each level of nesting.
pub fn operator_length(k: u64) -> usize
    requires { (3 ≤ k) × (k < 15) }
    ensures { (result ≡ length (between_text k)) × (result ≤ 5) }
{
    if k < Kind::SHL {
        return 3;
    }
    if k < Kind::LSHR {
        return 4;
    }
    if k < Kind::EQ { 5 } else { 4 }
}
