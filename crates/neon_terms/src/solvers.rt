// Scripts for solvers: document 02's S-1, and the form by lanes.
ghost use Rattle.script_length.specs.Answer.{Measured};
ghost use Rattle.script_write.specs.Answer.{Answered};
ghost use Rattle.script_lane_length.specs.Answer.{LaneMeasured};
ghost use Rattle.script_lane_write.specs.Answer.{LaneAnswered};

use crate::answers::give;

// Returns the number; the length goes to `length`.
#[unsafe(no_mangle)]
pub extern "C" fn neon_write_script(
    pool: &[u64],
    count: usize,
    a: usize,
    b: usize,
    buffer: &mut [u8],
    length: &mut usize,
) -> u64
    ensures { Answered pool.now count a b buffer.old result length.new buffer.new }
{
    give(
        script_write::write_script(pool, count, a, b, buffer),
        0,
        length,
    )
}

#[unsafe(no_mangle)]
pub extern "C" fn neon_script_length(
    pool: &[u64],
    count: usize,
    a: usize,
    b: usize,
    length: &mut usize,
) -> u64
    ensures { Measured pool.now count a b result length.new }
{
    give(script_length::script_length(pool, count, a, b), 0, length)
}

#[unsafe(no_mangle)]
pub extern "C" fn neon_write_lane_script(
    pool: &[u64],
    count: usize,
    a: usize,
    b: usize,
    hi: u64,
    lo: u64,
    buffer: &mut [u8],
    length: &mut usize,
) -> u64
    ensures { LaneAnswered pool.now count a b hi lo buffer.old result length.new buffer.new }
{
    give(
        script_lane_write::write_lane_script(pool, count, a, b, hi, lo, buffer),
        0,
        length,
    )
}

#[unsafe(no_mangle)]
pub extern "C" fn neon_lane_script_length(
    pool: &[u64],
    count: usize,
    a: usize,
    b: usize,
    hi: u64,
    lo: u64,
    length: &mut usize,
) -> u64
    ensures { LaneMeasured pool.now count a b hi lo result length.new }
{
    give(
        script_lane_length::lane_script_length(pool, count, a, b, hi, lo),
        0,
        length,
    )
}
