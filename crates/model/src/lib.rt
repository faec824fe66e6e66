// The code of the book: the record of a sketch, the table of refusals, and what a batch gives. All else here is specs/ and proofs/.
#![tactic(auto)]

ghost use Rattle.std.specs.Prelude.{◌≡◌, true};
ghost use Rattle.model.specs.Answers.{refusal_no, refusal_place};
ghost use Rattle.model.specs.Packed.{Bytes};
ghost use Rattle.model.specs.Check.{check_no};

// Any values may stand here: a call refuses what is not in good order. So the kind is a number: KIND is the answer to all but three (claim `Demand1`).
#[derive(Clone, Copy)]
pub struct Sketch {
    pub kind: u8,
    pub lg_k: u8,
    pub cur_min: u8,
    pub num_at_cur_min: u32,
    pub aux_count: u32,
}

// A sketch that has passed its checks, with the memory that it is kept in: whoever is handed one asks for nothing more.
#[derive(Clone, Copy)]
pub struct Checked<'a> {
    pub sketch: Sketch,
    pub regs: &'a [u8],
    pub aux: &'a [u32],
    ghost bytes: { Bytes regs.now },
    ghost passed: { check_no true sketch regs.now aux.now ≡ 0 },
}

// Why a call is refused. A case with a place carries it: a word's position, or a slot.
#[derive(Clone, Copy, Debug, PartialEq, Eq)]
pub enum Refusal {
    Kind,
    LgK,
    Size,
    Damaged,
    Finer,
    NoRoom,
    Short,
    Header,
    Mode,
    Counts,
    LgArr,
    Value,
    Spare,
    Tally,
    Out,
    AuxEmpty(u32),
    AuxTwice(u32),
    AuxLow(u32),
    AuxCount,
    AuxMatch(u32),
    Form,
    ListEmpty(u32),
}

// The record after a batch, and how many of its coupons were taken.
#[derive(Clone, Copy)]
pub struct Fed {
    pub sketch: Sketch,
    pub taken: usize,
}

// Why a batch was refused or stopped, and what it came to all the same: one that is stopped keeps what it took.
#[derive(Clone, Copy)]
pub struct Stopped {
    pub why: Refusal,
    pub fed: Fed,
}

impl Refusal {
    // Its number in the table of refusals.
    pub fn number(self) -> u8
        ensures { result ≡ refusal_no self }
    {
        match self {
            Refusal::Kind => 1,
            Refusal::LgK => 2,
            Refusal::Size => 3,
            Refusal::Damaged => 4,
            Refusal::Finer => 5,
            Refusal::NoRoom => 6,
            Refusal::Short => 7,
            Refusal::Header => 8,
            Refusal::Mode => 9,
            Refusal::Counts => 10,
            Refusal::LgArr => 11,
            Refusal::Value => 12,
            Refusal::Spare => 14,
            Refusal::Tally => 15,
            Refusal::Out => 16,
            Refusal::AuxEmpty(_) => 21,
            Refusal::AuxTwice(_) => 22,
            Refusal::AuxLow(_) => 23,
            Refusal::AuxCount => 24,
            Refusal::AuxMatch(_) => 25,
            Refusal::Form => 26,
            Refusal::ListEmpty(_) => 27,
        }
    }

    // Its place, or 0 where it has none.
    pub fn place(self) -> u32
        ensures { result ≡ refusal_place self }
    {
        match self {
            Refusal::AuxEmpty(at)
            | Refusal::AuxTwice(at)
            | Refusal::AuxLow(at)
            | Refusal::AuxMatch(at)
            | Refusal::ListEmpty(at) => at,
            _ => 0,
        }
    }
}
