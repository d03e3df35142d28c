// The operator, the comparison or the range that a flag chooses.
ghost use Rattle.std.specs.Prelude.{cond, ◌≡◌};
ghost use Rattle.terms.specs.declared.BinOp.TheVariants.{Add, Sub, Shl, LShr, AShr};
ghost use Rattle.terms.specs.declared.CmpOp.TheVariants.{Slt, Ult};
ghost use Rattle.trees.specs.declared.SaturateTo.TheVariants.{Signed, SignedToUnsigned};

use terms::{BinOp, CmpOp};
use trees::SaturateTo;

// The Rust's `shift_by`: the right shift of a signed or an unsigned value.
pub fn shift_op(signed: bool) -> BinOp
    ensures { result ≡ cond signed AShr LShr }
{
    if signed { BinOp::AShr } else { BinOp::LShr }
}

// The shift of SLI, and of SRI.
pub fn insert_op(left: bool) -> BinOp
    ensures { result ≡ cond left Shl LShr }
{
    if left { BinOp::Shl } else { BinOp::LShr }
}

// The sum or the difference of a high half.
pub fn sum_op(subtract: bool) -> BinOp
    ensures { result ≡ cond subtract Sub Add }
{
    if subtract { BinOp::Sub } else { BinOp::Add }
}

// The comparison of an absolute difference.
pub fn less_op(signed: bool) -> CmpOp
    ensures { result ≡ cond signed Slt Ult }
{
    if signed { CmpOp::Slt } else { CmpOp::Ult }
}

// The range of a sum of mixed sign: one that can be negative is clamped into the unsigned range as a signed one.
pub fn mixed_to(destination_signed: bool) -> SaturateTo
    ensures { result ≡ cond destination_signed Signed SignedToUnsigned }
{
    if destination_signed {
        SaturateTo::Signed
    } else {
        SaturateTo::SignedToUnsigned
    }
}
