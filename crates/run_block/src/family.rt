// How the lanes of each family lie in the registers that it reads.
ghost use Rattle.std.specs.Prelude.{◌≡◌, ◌≤◌};
ghost use Rattle.run_block.specs.Layout.{layout as laidOut, layout_of, source_by, skip_by, first_by, second_by};

use crate::Layout;
use lower_kinds::sources::narrowing;
use trees::NeonOp;

fn laid_out(narrow: bool, long: bool, upper: bool, element: bool) -> Layout
    ensures { result ≡ laidOut narrow long upper element }
{
    Layout {
        narrow,
        long,
        upper,
        element,
    }
}

pub fn layout_of(op: NeonOp) -> Layout
    ensures { result ≡ layout_of op }
{
    match op {
        NeonOp::Shift { kind: _, signed: _ } => laid_out(false, false, false, false),
        NeonOp::ShiftInsert { left: _, shift: _ } => laid_out(false, false, false, false),
        NeonOp::MixedSignAdd {
            destination_signed: _,
        } => laid_out(false, false, false, false),
        NeonOp::DoublingLong {
            combine: _,
            upper,
            by_element,
        } => laid_out(false, true, upper, by_element),
        NeonOp::Saturating {
            kind,
            signed_sources: _,
            upper: _,
        } => laid_out(narrowing(kind), false, false, false),
        NeonOp::BitwiseUnary(_) => laid_out(false, false, false, false),
        NeonOp::AbsoluteDifference {
            signed: _,
            accumulate: _,
        } => laid_out(false, false, false, false),
        NeonOp::HighNarrow {
            subtract: _,
            rounding: _,
            upper: _,
        } => laid_out(true, false, false, false),
    }
}

pub fn source_by(y: Layout, n: u64) -> u64
    requires { n ≤ 64 }
    ensures { result ≡ source_by y n }
{
    if y.narrow {
        return n * 2;
    }
    if y.long {
        return n / 2;
    }
    n
}

pub fn skip_by(y: Layout, k: u64) -> u64
    ensures { result ≡ skip_by y k }
{
    if y.upper {
        return k;
    }
    0
}

pub fn first_by(y: Layout, whole: bool) -> bool
    ensures { result ≡ first_by y whole }
{
    if y.narrow {
        return true;
    }
    if y.long {
        return y.upper;
    }
    whole
}

pub fn second_by(y: Layout, whole: bool) -> bool
    ensures { result ≡ second_by y whole }
{
    if y.narrow {
        return true;
    }
    if y.long {
        return y.upper | y.element;
    }
    whole
}
