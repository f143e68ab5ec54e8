// The codes of the three criteria, and the bank that follows a code for each core.
ghost use Rattle.std.specs.Prelude.{◌≡◌, ℕ, ◌-◌, ◌<◌, MatchOption, ◌≢◌};
ghost use Rattle.policy.specs.declared.codes.Code.{Code};
ghost use Rattle.policy.specs.declared.cores.Core.{Core};
ghost use Rattle.policy.specs.declared.candidates.Candidate.{Candidate};
ghost use Rattle.policy.specs.Codes.{number_of, Decodes, code_in, coded};

use crate::banks::{Bank, Side, Table};
use crate::candidates::Candidate;
use crate::cores::Core;
use crate::criteria;
use crate::disciplines::{Discipline, Numbered};
use thiserror::Error;

/// The criterion of a core, as plans name it.
#[derive(Clone, Copy)]
pub enum Code {
    FixedPriority = 1,
    RateMonotonic = 2,
    EarliestDeadline = 3,
}

/// A number that is no code.
#[derive(Clone, Copy, Debug, Error)]
#[error("there is no code {0}: codes are 1, 2 and 3")]
pub struct UnknownCode(pub u8);

impl TryFrom<u8> for Code {
    type Error = UnknownCode;

    ghost try_from_gives = { Decodes };

    fn try_from(number: u8) -> Result<Code, UnknownCode> {
        match number {
            1 => Ok(Code::FixedPriority),
            2 => Ok(Code::RateMonotonic),
            3 => Ok(Code::EarliestDeadline),
            _ => Err(UnknownCode(number)),
        }
    }
}

impl Code {
    /// The number by which a plan names it.
    pub fn number(self) -> u8
        ensures { result ≡ number_of self }
    {
        self as u8
    }
}

/// A bank for every choice of codes: on the left fixed priority, on the right a bank of the other two.
pub type CodeBank = Bank<
    Numbered<criteria::FixedPriority>,
    Bank<Numbered<criteria::RateMonotonic>, Numbered<criteria::EarliestDeadline>>,
>;

fn assign(bank: &mut CodeBank, core: Core, code: Code)
    ensures changed { code_in bank.new.table.sides bank.new.right.table.sides core ≡ code }
    ensures others { (k : Core) → (k.number ≢ core.number) → code_in bank.new.table.sides bank.new.right.table.sides k ≡ code_in bank.old.table.sides bank.old.right.table.sides k }
{
    match code {
        Code::FixedPriority => bank.table.set(core, Side::Left),
        Code::RateMonotonic => {
            bank.table.set(core, Side::Right);
            bank.right.table.set(core, Side::Left);
        }
        Code::EarliestDeadline => {
            bank.table.set(core, Side::Right);
            bank.right.table.set(core, Side::Right);
        }
    }
}

fn fixed_everywhere() -> CodeBank {
    let others = Bank {
        left: Numbered {
            criterion: criteria::RateMonotonic,
        },
        right: Numbered {
            criterion: criteria::EarliestDeadline,
        },
        table: Table::new(Side::Left),
    };
    Bank {
        left: Numbered {
            criterion: criteria::FixedPriority,
        },
        right: others,
        table: Table::new(Side::Left),
    }
}

/// A bank that lets each core choose by the criterion of its code, and by number between equals.
pub fn code_bank(codes: &[Code; 8]) -> CodeBank
    ensures { (k : Core) (a b : Candidate) (t : ℕ) → ⟦<CodeBank as Discipline>⟧.first result k a b t ≡ coded codes.now k a b t }
{
    let mut bank = fixed_everywhere();
    for core in Core::all() {
        assign(&mut bank, core, codes[core.place()]);
    }
    bank
}

/// Whether `a` goes before `b` under the bank of these codes.
pub fn goes_first_by_code(codes: &[Code; 8], core: Core, a: Candidate, b: Candidate, t: u64) -> bool
    ensures { result ≡ coded codes.now core a b t }
{
    code_bank(codes).goes_first(core, a, b, t)
}
