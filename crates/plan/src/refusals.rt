// Refusals: why a call is not taken, and leaves everything as it was.
ghost use Rattle.std.specs.Prelude.{◌≡◌, Decides};
ghost use Rattle.plan.specs.Numbers.{refusal_number};

use thiserror::Error;

/// Why a plan takes no handler, no join or no other core, or a check no tables.
#[derive(Clone, Copy, PartialEq, Eq, Debug, Error)]
pub enum Refusal {
    #[error("there are 64 handlers already")]
    PlanFull = 1,
    #[error("the period is 0")]
    NoPeriod = 2,
    #[error("the shortest time is 0 or above the longest")]
    NoTimes = 3,
    #[error("there is no such core: cores are 1 to 8")]
    NoSuchCore = 4,
    #[error("the round would pass 16777216")]
    LongRound = 5,
    #[error("there is no handler of that number")]
    NoSuchHandler = 6,
    #[error("joined handlers need equal periods and equal offsets")]
    OtherTimes = 7,
    #[error("the join would close a circle")]
    Circle = 8,
    #[error("one working table is longer than the other, or a table has more than 65535 rows")]
    UnfitTables = 9,
}

impl Refusal {
    /// The refusal's number, 1 to 9. Two refusals are `==` exactly where they are one.
    pub fn number(self) -> u8
        ensures number { result ≡ refusal_number self }
        ensures told { (x y : Refusal) → Decides (⟦<Refusal as PartialEq>⟧.eq x y) (x ≡ y) }
    {
        self as u8
    }
}
