// The Rust's neon/width.rs: the resolver of the high halves of sums and differences.
ghost use Rattle.std.specs.Prelude.{◌≡◌, ℕ, ◌≤◌};
ghost use Rattle.neon.specs.Op.{op_at};
ghost use Rattle.trees.specs.declared.NeonOp.{NeonOp};
ghost use Rattle.trees.specs.Neon.{neon_op};

use trees::NeonOp;

fn high(subtract: bool, rounding: bool, upper: bool) -> NeonOp
    ensures { result ≡ NeonOp.HighNarrow subtract rounding upper }
{
    NeonOp::HighNarrow {
        subtract,
        rounding,
        upper,
    }
}

pub fn high_narrow_shape(operation: u64, upper: bool) -> NeonOp
    requires { (64 ≤ operation) × (operation ≤ 67) }
    ensures { (i : ℕ) → result ≡ neon_op (op_at operation) i upper }
{
    match operation {
        64 => high(false, false, upper), // ADDHN
        65 => high(false, true, upper), // RADDHN
        66 => high(true, false, upper), // SUBHN
        _ => high(true, true, upper), // RSUBHN
    }
}
