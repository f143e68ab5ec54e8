// The plan of a file, checked in tables from the heap.
ghost use Rattle.std.specs.Prelude.{◌≡◌, map, IfOk};
ghost use Rattle.policy.specs.Codes.{number_of, coded};
ghost use Rattle.plan.specs.Contents.{contents};
ghost use Rattle.model.specs.Checks.{tables, Checks};
ghost use Rattle.timing.specs.Lines.{said};

use checker::check;
use model::states::State;
use model::verdicts::{Rows, Verdict};
use plan::plans::Plan;
use plan::refusals::Refusal;
use policy::codes::{Code, UnknownCode, code_bank};
use report::words::{Answer, Word};
use std::alloc::{AllocError, Global};

// The tables of a check: two working tables, and the mark table.
#[derive(Drop)]
pub(crate) struct Tables {
    pub(crate) front: Vec<State>,
    pub(crate) back: Vec<State>,
    pub(crate) marks: Vec<State>,
}

impl Tables {
    // Tables of so many rows each.
    pub(crate) fn of(heap: Global, rows: u16) -> Result<Tables, AllocError> {
        Ok(Tables {
            front: vec![in heap; State::new(); rows.into()]?,
            back: vec![in heap; State::new(); rows.into()]?,
            marks: vec![in heap; State::new(); rows.into()]?,
        })
    }
}

// The codes of these numbers.
pub(crate) fn decoded(numbers: &[u8; 8]) -> Result<[Code; 8], UnknownCode>
    ensures { IfOk result (λ codes. map number_of codes ≡ numbers.now) }
{
    let mut codes = [Code::FixedPriority; 8];
    for place in 0..8 {
        codes[place] = Code::try_from(numbers[place])?;
    }
    Ok(codes)
}

// Checks the plan under these codes.
pub(crate) fn judge(
    plan: &Plan,
    codes: &[Code; 8],
    front: &mut [State],
    back: &mut [State],
    marks: &mut [State],
) -> Result<Verdict, Refusal>
    ensures { Checks (contents plan.now) (coded codes.now)
        (tables front.old back.old marks.old) result (tables front.new back.new marks.new) }
{
    check(plan, &code_bank(codes), front, back, marks)
}

// A verdict as a word and two numbers, for tables of so many rows.
pub(crate) fn said(verdict: Verdict, rows: u16) -> Answer
    ensures { result ≡ said rows verdict }
{
    let (word, first, second) = match verdict {
        Verdict::Kept { rounds, marks } => (Word::Kept, rounds, marks),
        Verdict::Missed { time, number } => (Word::Missed, time, number.into()),
        Verdict::RowsShort {
            rows: Rows::Working,
            time,
        } => (Word::Working, time, rows.into()),
        Verdict::RowsShort {
            rows: Rows::Marks,
            time,
        } => (Word::Marks, time, rows.into()),
    };
    Answer {
        word,
        first,
        second,
    }
}
