// The refusals of document 01, by name, with its numbers. Every crate answers these and no others.
#![tactic(auto)]

ghost use Rattle.std.specs.Prelude.{◌≡◌};
ghost use Rattle.base_refusals.specs.Refusal.{number};

pub mod codes;

// A refusal keeps the name that document 01 gives it, and `as u8` its number.
#[derive(Clone, Copy, Debug, PartialEq, Eq)]
pub enum Refusal {
    CHANNELS = 1,
    SAMPLES = 2,
    MAP = 3,
    DEST = 4,
    STORE = 5,
    FULL = 6,
    SET = 7,
    MODE = 8,
    NONE = 9,
    NAN = 10,
    SCALE = 11,
    LENGTH = 12,
    KIND = 13,
    CONTENT = 14,
    ROOM = 15,
}

// The answer of an operation that answers no values.
pub type Answer = Result<(), Refusal>;

impl From<Refusal> for u8 {
    ghost from_gives = { λ refusal n. n ≡ number refusal };

    fn from(refusal: Refusal) -> u8 {
        refusal as u8
    }
}
