// Which operands a kind of node has.
#![tactic(auto)]

ghost use Rattle.std.specs.Prelude.{◌≡◌};
ghost use Rattle.pool_operands.specs.Operands.{has_a, has_b, has_c};

use pool::words::Kind;

// Whether a node of this kind has a first, a second, a third operand.
pub fn has_a(kind: u64) -> bool
    ensures { result ≡ has_a kind }
{
    Kind::ADD <= kind
}

pub fn has_b(kind: u64) -> bool
    ensures { result ≡ has_b kind }
{
    (Kind::ADD <= kind) & (kind <= Kind::ITE) | (kind == Kind::CONCAT)
}

pub fn has_c(kind: u64) -> bool
    ensures { result ≡ has_c kind }
{
    kind == Kind::ITE
}
