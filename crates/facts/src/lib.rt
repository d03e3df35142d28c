// The refusals and their order, and laws on tests and tables that several crates use and no library of Rattle has.
#![tactic(auto)]

ghost use Rattle.facts.specs.Answer.{code};
ghost use Rattle.std.specs.Prelude.{◌≡◌};

// Why a request is refused, in the order of README's table.
#[derive(Clone, Copy, Debug, PartialEq, Eq)]
pub enum Refusal {
    Pool,
    Operation,
    Form,
    Immediate,
    Node,
    Room,
    Register,
    Records,
    Buffer,
    Line,
    Visits,
    Word,
    Bits,
    Step,
}

// The number of README's table that C is given; 0 there says that nothing is refused.
impl From<Refusal> for u64 {
    ghost from_gives = { λ r n. n ≡ code r };

    fn from(refusal: Refusal) -> u64 {
        match refusal {
            Refusal::Pool => 1,
            Refusal::Operation => 2,
            Refusal::Form => 3,
            Refusal::Immediate => 4,
            Refusal::Node => 5,
            Refusal::Room => 6,
            Refusal::Register => 7,
            Refusal::Records => 8,
            Refusal::Buffer => 9,
            Refusal::Line => 10,
            Refusal::Visits => 11,
            Refusal::Word => 12,
            Refusal::Bits => 13,
            Refusal::Step => 14,
        }
    }
}

// The refusal of a list: why, and the position of the entry that is refused, 0 if it is none of them.
#[derive(Clone, Copy, Debug, PartialEq, Eq)]
pub struct RefusedAt {
    pub refusal: Refusal,
    pub position: usize,
}
