// The Rust's neon/arith.rs and neon/width.rs: the shape of an instruction, its family with its arguments, at its lanes.
#![tactic(auto)]

pub mod arith;
pub mod width;

ghost use Rattle.std.specs.Prelude.{◌≡◌, ◌≤◌};
ghost use Rattle.neon.specs.Op.{op_at, arrangement_at, full};
ghost use Rattle.neon.specs.Form.{form, is_narrow, made_bits};
ghost use Rattle.trees.specs.Neon.{neon_op, shape_of};

use neon::Lane;
use trees::{NeonOp, NeonShape};

// Whether source lanes have twice the result's bits.
fn narrows(operation: u64) -> bool
    requires { operation ≤ 67 }
    ensures { result ≡ is_narrow (form (op_at operation)).lanes }
{
    if operation < 27 {
        return false;
    }
    if operation < 38 {
        return true;
    }
    64 <= operation
}

// The bits that are made: lanes that narrow fill one half of the view.
fn made_bits(operation: u64, full: bool) -> u64
    requires { operation ≤ 67 }
    ensures { result ≡ made_bits (form (op_at operation)).lanes full }
{
    if narrows(operation) {
        return 64;
    }
    if full { 128 } else { 64 }
}

// The Rust asks its resolvers one after the other; here an operation's number says whose it is.
fn neon_op(operation: u64, i: u64, upper: bool) -> NeonOp
    requires { (1 ≤ operation) × (operation ≤ 67) }
    ensures { result ≡ neon_op (op_at operation) i upper }
{
    if operation < 17 {
        return arith::shift_shape(operation, i);
    }
    if operation < 19 {
        return arith::shift_insert_shape(operation, i);
    }
    if operation < 42 {
        return arith::saturating_shape(operation, i, upper);
    }
    if operation < 54 {
        return arith::doubling_long_shape(operation);
    }
    if operation < 56 {
        return arith::mixed_sign_add_shape(operation);
    }
    if operation < 60 {
        return arith::absolute_difference_shape(operation);
    }
    if operation < 64 {
        return arith::bitwise_unary_shape(operation);
    }
    width::high_narrow_shape(operation, upper)
}

pub fn shape(operation: u64, arrangement: u64, i: u64) -> NeonShape
    requires { (1 ≤ operation) × (operation ≤ 67) × (arrangement ≤ 6) }
    ensures { result ≡ shape_of (op_at operation) (arrangement_at arrangement) i }
{
    let full = neon_form::is_full(arrangement);
    let op = neon_op(operation, i, full);
    let bits = neon_form::lane_bits(arrangement);
    let made = made_bits(operation, full);
    NeonShape {
        op,
        lane_bits: bits,
        lanes: made / bits,
        source_index: Lane(i),
    }
}
