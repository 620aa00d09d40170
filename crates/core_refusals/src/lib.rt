// Generated from include/shuntberry.h: do not edit. The refusals and their numbers, by the header's names. The definitions have the numbers
// themselves, as the specification says them: where one differs, each proof falls that it stands in.
#![tactic(auto)]

ghost use Rattle.std.specs.Prelude.{◌≡◌};
ghost use Rattle.core_refusals.specs.Refusals.{number};

// Why a call is refused.
#[derive(Clone, Copy, Debug, PartialEq, Eq)]
pub enum Refusal {
    StoreShort = 10,
    InputLength = 11,
    BlockNumber = 12,
    BlockCheck = 13,
    States = 14,
    Groups = 15,
    BlockCount = 16,
    StrayBit = 17,
    Filler = 18,
    OutputShort = 19,
    Allowance = 20,
    PathShort = 21,
    FanOut = 22,
    DistancesShort = 23,
    Site = 24,
    LogOdd = 25,
    LogLong = 26,
    StepState = 27,
    NotPossible = 28,
    WindowRange = 29,
    TooMany = 30,
    Time = 31,
}

// kept: beside the other: Rust has no one From for every number
impl From<Refusal> for u8 {
    ghost from_gives = { λ r k. k ≡ number r };

    fn from(refusal: Refusal) -> u8 {
        refusal as u8
    }
}

// kept: beside the other: Rust has no one From for every number
impl From<Refusal> for u32 {
    ghost from_gives = { λ r k. k ≡ number r };

    fn from(refusal: Refusal) -> u32 {
        refusal as u32
    }
}
