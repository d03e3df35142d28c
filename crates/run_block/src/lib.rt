// Blocks on the device's numbers: 32 registers go in and come out, lane by lane, with no pool (document 02, S-2).
#![tactic(auto)]

ghost use Rattle.std.specs.Prelude.{◌≡◌, ◌<◌};
ghost use Rattle.neon.specs.Op.{op_at, arrangement_at};
ghost use Rattle.neon.specs.Run.{read_bits};
ghost use Rattle.neon.specs.Refusal.{Formed, Legal, AllLegal};
ghost use Rattle.block_check.specs.Records.{records_of};
ghost use Rattle.run_block.specs.Run.{Short, Placed, ResultOf, SteppedBy, RanBy, RunAnswered, FlagAnswered};
ghost use Rattle.run_block.specs.Lanes.{number, Written};
ghost use Rattle.wide.specs.Registers.{registers_of};

use block_check::{MOST_RECORDS, records_refusal};
use block_record_check::record_at;
use family::{first_by, layout_of, second_by, skip_by, source_by};
use neon::{Instruction, Lane};

pub mod family;
pub mod lanes;

// A register of 128 bits.
#[derive(Clone, Copy)]
pub struct Register {
    pub low: u64,
    pub high: u64,
}

// The bits of a result, and whether a lane saturated.
#[derive(Clone, Copy)]
pub struct Ran {
    pub low: u64,
    pub high: u64,
    pub saturated: bool,
}

// How the lanes of a family lie in the registers that it reads.
#[derive(Clone, Copy)]
pub struct Layout {
    pub narrow: bool,
    pub long: bool,
    pub upper: bool,
    pub element: bool,
}

// A register as it is read: whole, or its low half.
fn halve(x: Register, whole: bool) -> Register
    ensures { number result ≡ read_bits whole (number x) }
{
    if whole {
        return x;
    }
    Register {
        low: x.low,
        high: 0,
    }
}

// The new bits; in a narrowing 2 form they are above the low half of d.
fn place(above: bool, x: Ran, d: Register) -> Ran
    requires { Short above x }
    ensures { Placed above x (number d) result }
{
    if above {
        return Ran {
            low: d.low,
            high: x.low,
            saturated: x.saturated,
        };
    }
    x
}

// The result of an instruction on the registers d, n, m.
fn result_of(operation: u64, arrangement: u64, i: u64, d: Register, a: Register, b: Register) -> Ran
    requires { Formed operation arrangement i }
    ensures { ResultOf (op_at operation) (arrangement_at arrangement) i (number d) (number a) (number b) result }
{
    let s = lower_shape::shape(operation, arrangement, i);
    let op = s.op;
    let n = s.lane_bits;
    let k = s.lanes;
    let y = layout_of(op);
    let whole = neon_form::is_full(arrangement);
    let old = halve(d, whole);
    let first = halve(a, first_by(y, whole));
    let second = halve(b, second_by(y, whole));
    let x = lanes::run_lanes(
        op,
        n,
        source_by(y, n),
        k,
        skip_by(y, k),
        y.element,
        Lane(i),
        old,
        first,
        second,
    );
    place(y.narrow & whole, x, old)
}

// The 32 registers, two words each, the low one first.
#[derive(Clone, Copy)]
pub struct Registers {
    pub words: [u64; 64],
}

impl Registers {
    pub fn get(self, r: u64) -> Register
        requires { r < 32 }
        ensures { number result ≡ registers_of self.words r }
    {
        let at = 2 * (r as usize);
        Register {
            low: self.words[at],
            high: self.words[at + 1],
        }
    }

    pub fn set(self, d: u64, x: Register) -> Self
        requires { d < 32 }
        ensures { Written self.words result.words d (number x) }
    {
        let at = 2 * (d as usize);
        let mut m = self;
        m.words[at] = x.low;
        m.words[at + 1] = x.high;
        m
    }
}

// The registers after a record or a block, and whether a lane saturated.
#[derive(Clone, Copy)]
pub struct Stepped {
    pub registers: Registers,
    pub saturated: bool,
}

// One record.
pub fn step(regs: Registers, c: Instruction) -> Stepped
    requires { Legal c }
    ensures { SteppedBy c regs.words result.registers.words result.saturated }
{
    let d = regs.get(c.d);
    let a = regs.get(c.n);
    let b = regs.get(c.m);
    let x = result_of(c.operation, c.arrangement, c.i, d, a, b);
    let new = regs.set(
        c.d,
        Register {
            low: x.low,
            high: x.high,
        },
    );
    Stepped {
        registers: new,
        saturated: x.saturated,
    }
}

// The records in order, each on the registers that the one before left.
fn run_records(start: Registers, records: &[u64]) -> Stepped
    requires { AllLegal (records_of records.now) }
    ensures { RanBy (records_of records.now) start.words result.registers.words result.saturated }
{
    let count = records.len() / 6;
    let mut regs = start;
    let mut saturated = false;
    for j in 0..count {
        let c = record_at(records, j);
        let t = step(regs, c);
        regs = t.registers;
        saturated = saturated | t.saturated;
    }
    Stepped {
        registers: regs,
        saturated,
    }
}

// The number and the position of document 01; the registers, as they were if a record is refused; whether a lane saturated.
#[derive(Clone, Copy)]
pub struct RunAnswer {
    pub number: u64,
    pub position: usize,
    pub registers: Registers,
    pub saturated: bool,
}

// A block on 32 registers. Six numbers per record: operation, arrangement, i, d, n, m; numbers after the last whole record are not
// read. A block with one refused record is refused whole.
pub fn run(start: Registers, records: &[u64]) -> RunAnswer
    ensures run_answered { RunAnswered start.words (records_of records.now) result.number result.position result.registers.words }
    ensures flag_answered { FlagAnswered start.words (records_of records.now) result.number result.saturated }
{
    if MOST_RECORDS < records.len() / 6 {
        return RunAnswer {
            number: 8,
            position: 0,
            registers: start,
            saturated: false,
        };
    }
    if let Err(refused) = records_refusal(records) {
        return RunAnswer {
            number: u64::from(refused.refusal),
            position: refused.position,
            registers: start,
            saturated: false,
        };
    }
    let t = run_records(start, records);
    RunAnswer {
        number: 0,
        position: 0,
        registers: t.registers,
        saturated: t.saturated,
    }
}
