// Why a file is not read or written.
ghost use Rattle.std.specs.Prelude.{◌≡◌, Decides};
ghost use Rattle.planfile.specs.Numbers.{flaw_number, cause_number};
ghost use Rattle.planfile.specs.declared.faults.Cause.{Cause};
ghost use Rattle.planfile.specs.declared.faults.Cause.TheVariants.{Plan};
ghost use Rattle.planfile.specs.declared.faults.Fault.{Fault};
ghost use Rattle.planfile.specs.declared.faults.Flaw.{Flaw};

use plan::refusals::Refusal;
use thiserror::Error;

/// What is wrong with a file, or with what is to be written.
#[derive(Clone, Copy, PartialEq, Eq, Debug, Error)]
pub enum Flaw {
    #[error("the file ends inside a record, or before its end record")]
    Cut = 10,
    #[error("there is no such kind of record: kinds are 1 to 4")]
    UnknownKind = 11,
    #[error("the record does not stand in the order of a file")]
    OutOfOrder = 12,
    #[error("there is no such code: codes are 1, 2 and 3")]
    NoSuchCode = 13,
    #[error("the file is longer than the room for it")]
    NoRoom = 14,
}

impl Flaw {
    /// The flaw's number, 10 to 14. Flaws are equal by `==` where they are the same.
    pub fn number(self) -> u8
        ensures number { result ≡ flaw_number self }
        ensures same { (x y : Flaw) → Decides (⟦<Flaw as PartialEq>⟧.eq x y) (x ≡ y) }
    {
        self as u8
    }
}

/// Whose test a file fails: the file's own, or one of the plan that it describes.
#[derive(Clone, Copy, PartialEq, Eq, Debug, Error)]
pub enum Cause {
    #[error("{0}")]
    File(Flaw),
    #[error("{0}")]
    Plan(Refusal),
}

// By hand and not by `#[from]`, whose impl has no contract: clauses say which cause a `?` passes on.
impl From<Refusal> for Cause {
    ghost from_gives = { λ refusal cause. cause ≡ Plan refusal };

    fn from(refusal: Refusal) -> Cause {
        Cause::Plan(refusal)
    }
}

impl Cause {
    /// The number of the test that failed: 1 to 8 of the plan's, 10 to 13 of the file's. Causes, and so faults, are equal
    /// by `==` where they are the same.
    pub fn number(self) -> u8
        ensures number { result ≡ cause_number self }
        ensures same { (x y : Cause) → Decides (⟦<Cause as PartialEq>⟧.eq x y) (x ≡ y) }
        ensures same_fault { (x y : Fault) → Decides (⟦<Fault as PartialEq>⟧.eq x y) (x ≡ y) }
    {
        match self {
            Cause::File(flaw) => flaw.number(),
            Cause::Plan(refusal) => refusal.number(),
        }
    }
}

/// Why a file is refused, and at which record: the place of its kind byte, counted from 0.
#[derive(Clone, Copy, PartialEq, Eq, Debug, Error)]
#[error("at byte {place}: {cause}")]
pub struct Fault {
    pub cause: Cause,
    pub place: usize,
}
