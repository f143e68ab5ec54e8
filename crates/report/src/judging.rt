// What is said of the bytes of a file.
ghost use Rattle.std.specs.Prelude.{◌≡◌, map, MatchResult};
ghost use Rattle.std.specs.List.{Contains as Has};
ghost use Rattle.policy.specs.Codes.{number_of, IsCode, coded};
ghost use Rattle.plan.specs.Contents.{contents};
ghost use Rattle.model.specs.Verdicts.{VerdictIs};
ghost use Rattle.planfile.specs.Theorems.{AreCodes};
ghost use Rattle.report.specs.Said.{rows, of_verdict, of_fault, Answers};
ghost use Rattle.report.specs.Theorems.{AnswersCanBeTrusted};

use crate::words::{Answer, Word};
use checker::check;
use model::states::State;
use model::verdicts::{Rows, Verdict};
use plan::plans::Plan;
use planfile::faults::Fault;
use planfile::reading::whole::read;
use policy::codes::{Code, code_bank};

// The rows of each table.
const ROWS: usize = 128;

// A verdict as a word and two numbers.
fn of_verdict(verdict: Verdict) -> Answer
    ensures { result ≡ of_verdict verdict }
{
    let (word, first, second) = match verdict {
        Verdict::Kept { rounds, marks } => (Word::Kept, rounds, marks),
        Verdict::Missed { time, number } => (Word::Missed, time, number.into()),
        Verdict::RowsShort {
            rows: Rows::Working,
            time,
        } => (Word::Working, time, ROWS as u64),
        Verdict::RowsShort {
            rows: Rows::Marks,
            time,
        } => (Word::Marks, time, ROWS as u64),
    };
    Answer {
        word,
        first,
        second,
    }
}

fn of_fault(fault: Fault) -> Answer
    ensures { result ≡ of_fault fault }
{
    Answer {
        word: Word::Refused,
        first: fault.cause.number().into(),
        second: fault.place as u64,
    }
}

fn decoded(number: u8) -> Code
    requires { IsCode number }
    ensures { number_of result ≡ number }
{
    Code::try_from(number).unwrap()
}

// The codes of these numbers.
fn all_decoded(numbers: &[u8; 8]) -> [Code; 8]
    requires { AreCodes numbers.now }
    ensures { map number_of result ≡ numbers.now }
{
    let mut codes = [Code::FixedPriority; 8];
    for place in 0..8 {
        codes[place] = decoded(numbers[place]);
    }
    codes
}

// The verdict on the plan under these codes.
fn judged(plan: &Plan, codes: &[Code; 8]) -> Verdict
    ensures { VerdictIs (contents plan.now) (coded codes.now) rows rows result }
{
    let (mut front, mut back) = ([State::new(); ROWS], [State::new(); ROWS]);
    let mut marks = [State::new(); ROWS];
    check(plan, &code_bank(codes), &mut front, &mut back, &mut marks).unwrap()
}

/// What is said of the bytes: where they are the file of a plan, the verdict on it, with 128 rows in each table; else
/// why they are none.
pub fn answer(bytes: &[u8]) -> Answer
    ensures answers { Answers bytes.now result }
    ensures trusted { AnswersCanBeTrusted }
{
    let mut plan = Plan::new();
    let mut codes = [0; 8];
    match read(bytes, &mut plan, &mut codes) {
        Ok(()) => of_verdict(judged(&plan, &all_decoded(&codes))),
        Err(fault) => of_fault(fault),
    }
}
