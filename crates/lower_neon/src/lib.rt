// The Rust's neon/lower.rs: neon_value, which hands an operation to the function of its family; and the lowering of a legal form.
#![tactic(auto)]

ghost use Rattle.std.specs.Prelude.{◌≡◌, [], ◌*◌, ◌≤◌, ◌<◌};
ghost use Rattle.neon.specs.Op.{op_at, arrangement_at, view};
ghost use Rattle.neon.specs.Form.{has_second, reads_d, first_bits, second_bits};
ghost use Rattle.neon.specs.Refusal.{most_nodes, form_number};
ghost use Rattle.trees.specs.Trees.{neon_value, result_tree};
ghost use Rattle.pool.specs.Growth.{Room};
ghost use Rattle.lower.specs.Builds.{Lowers, Below, read, read_if, with_lower};
ghost use Rattle.lower_neon.specs.Family.{reads_second, reads_old, keeps_lower, old_width, first_width, second_width, FamilyIn};

use lower_absolute_difference::absolute_difference_lanes;
use lower_bitwise_unary::bitwise_unary_lanes;
use lower_doubling_long::doubling_long_lanes;
use lower_high_narrow::high_narrow_lanes;
use lower_mixed_sign_add::mixed_sign_add_lanes;
use lower_saturating::saturating_lanes;
use lower_shift::shift_lanes;
use lower_shift_insert::shift_insert_lanes;
use pool::{Built, Node};
use trees::{NeonOp, NeonShape};

// The arms are in the Rust's order.
pub fn neon_value(
    pool: &mut [u64],
    count: usize,
    shape: NeonShape,
    first: Node,
    second: Node,
    d: Node,
) -> Built
    requires room { Room pool.old count most_nodes }
    requires first_lt_count { (first.0 < count) × Below (read_if (reads_second shape.op) second 0) count × Below (read_if (reads_old shape.op) d 0) count }
    requires bound { (8 ≤ shape.lane_bits) × (shape.lane_bits ≤ 64) × (1 ≤ shape.lanes) × (shape.lane_bits * shape.lanes ≤ 128)
        × FamilyIn shape.op shape.lane_bits shape.lanes shape.source_index.0 }
    ensures { Lowers pool.old count pool.new result most_nodes (with_lower (keeps_lower shape.op) (shape.lane_bits * shape.lanes))
        (read_if (reads_old shape.op) d (old_width shape.op shape.lane_bits shape.lanes))
        (read first (first_width shape.op shape.lane_bits shape.lanes))
        (read_if (reads_second shape.op) second (second_width shape.op shape.lane_bits shape.lanes))
        (λ d a b. neon_value shape d a b) [] }
{
    let op = shape.op;
    let n = shape.lane_bits;
    let lanes = shape.lanes;
    match op {
        NeonOp::Saturating {
            kind,
            signed_sources: signed,
            upper,
        } => { saturating_lanes(pool, count, kind, signed, upper, first, second, d, n, lanes) }
        NeonOp::Shift { kind, signed } => {
            shift_lanes(pool, count, kind, signed, first, second, n, lanes)
        }
        NeonOp::ShiftInsert { left, shift } => {
            shift_insert_lanes(pool, count, left, shift, first, d, n, lanes)
        }
        NeonOp::MixedSignAdd { destination_signed } => {
            mixed_sign_add_lanes(pool, count, destination_signed, first, d, n, lanes)
        }
        NeonOp::DoublingLong {
            combine,
            upper,
            by_element,
        } => {
            doubling_long_lanes(
                pool,
                count,
                combine,
                upper,
                by_element,
                shape.source_index,
                first,
                second,
                d,
                n,
                lanes,
            )
        }
        NeonOp::BitwiseUnary(kind) => bitwise_unary_lanes(pool, count, kind, first, n, lanes),
        NeonOp::AbsoluteDifference { signed, accumulate } => {
            absolute_difference_lanes(pool, count, signed, accumulate, first, second, d, n, lanes)
        }
        NeonOp::HighNarrow {
            subtract,
            rounding,
            upper,
        } => {
            high_narrow_lanes(
                pool, count, subtract, rounding, upper, first, second, d, n, lanes,
            )
        }
    }
}

// A legal form, on sources of the widths that it reads.
pub fn lower_form(
    pool: &mut [u64],
    count: usize,
    operation: u64,
    arrangement: u64,
    i: u64,
    d: Node,
    first: Node,
    second: Node,
) -> Built
    requires room { Room pool.old count most_nodes }
    requires i_value { form_number operation arrangement i 0 ≡ 0 }
    requires first_lt_count { (first.0 < count) × Below (read_if (has_second (op_at operation)) second 0) count
        × Below (read_if (reads_d (op_at operation) (arrangement_at arrangement)) d 0) count }
    ensures { Lowers pool.old count pool.new result most_nodes (view (arrangement_at arrangement))
        (read_if (reads_d (op_at operation) (arrangement_at arrangement)) d (view (arrangement_at arrangement)))
        (read first (first_bits (op_at operation) (arrangement_at arrangement)))
        (read_if (has_second (op_at operation)) second (second_bits (op_at operation) (arrangement_at arrangement)))
        (result_tree (op_at operation) (arrangement_at arrangement) i) [] }
{
    let shape = lower_shape::shape(operation, arrangement, i);
    neon_value(pool, count, shape, first, second, d)
}
