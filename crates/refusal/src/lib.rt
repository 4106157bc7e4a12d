// Why a request is refused: the rows of document 01's refusal card, and what document 02 adds to it. Each has the
// number that the papers give it.
#![tactic(auto)]

ghost use Rattle.std.specs.Prelude.{◌≡◌};
ghost use Rattle.refusal.specs.Numbers.{number};

// In the order of their numbers.
#[derive(Clone, Copy, PartialEq, Eq)]
pub enum Refusal {
    ArrayLength,
    Malformed,
    Address,
    WorkCount,
    NoBlock,
    NoStep,
    NoPart,
    RecordForm,
    RecordSum,
    RecordType,
    OutsideArray,
    NoEndRecord,
    RoomLength,
}

impl From<Refusal> for u32 {
    ghost from_gives = { λ e n. n ≡ number e };

    fn from(e: Refusal) -> u32 {
        match e {
            Refusal::ArrayLength => 1,
            Refusal::Malformed => 2,
            Refusal::Address => 3,
            Refusal::WorkCount => 4,
            Refusal::NoBlock => 5,
            Refusal::NoStep => 6,
            Refusal::NoPart => 7,
            Refusal::RecordForm => 10,
            Refusal::RecordSum => 11,
            Refusal::RecordType => 12,
            Refusal::OutsideArray => 13,
            Refusal::NoEndRecord => 14,
            Refusal::RoomLength => 17,
        }
    }
}
