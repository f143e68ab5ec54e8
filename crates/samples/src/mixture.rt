// Calls of every kind on one plan, refusals among them, made one after another.
ghost use Rattle.std.specs.Prelude.{◌≡◌, map, All};
ghost use Rattle.plan.specs.Contents.{Contents, contents};
ghost use Rattle.samples.specs.Example.{asks, answers, SomeHistoryHasEachKind};
ghost use Rattle.samples.specs.declared.mixture.Call.TheVariants.{Check};
ghost use Rattle.samples.specs.Mixtures.{asked, said, on_core_one, check_with};
ghost use Rattle.samples.specs.Mixtures.{Fits, Answered, AllAnswered};

use checker::check;
use model::states::State;
use model::verdicts::Verdict;
use plan::handlers::Handler;
use plan::plans::Plan;
use plan::refusals::Refusal;
use policy::codes::{Code, code_bank};

// The most rows that a table of the mixture has.
const MOST_ROWS: usize = 3;

/// The row counts of two working tables and a mark table.
#[derive(Clone, Copy)]
pub struct RowCounts {
    pub front: usize,
    pub back: usize,
    pub marks: usize,
}

/// A call on a plan.
#[derive(Clone, Copy)]
pub enum Call {
    Register(Handler),
    /// Joins the handler of the first number before that of the second.
    Join(u8, u8),
    /// Moves the handler of this number to this core.
    Reseat(u8, u8),
    /// A check under fixed priority on every core, with tables of so many rows.
    Check(RowCounts),
}

/// What a call answers.
#[derive(Clone, Copy)]
pub enum Answer {
    /// That of a register: the number of the handler.
    Number(Result<u8, Refusal>),
    /// That of a join or a reseat.
    Done(Result<(), Refusal>),
    /// That of a check.
    Found(Result<Verdict, Refusal>),
}

fn checked(plan: &Plan, rows: RowCounts) -> Answer
    requires { Fits (Check rows) }
    ensures { Answered (contents plan.now) (asked (Check rows)) (said result) (contents plan.now) }
{
    let (mut front, mut back) = ([State::new(); MOST_ROWS], [State::new(); MOST_ROWS]);
    let mut marks = [State::new(); MOST_ROWS];
    Answer::Found(check(
        plan,
        &code_bank(&[Code::FixedPriority; 8]),
        &mut front[..rows.front],
        &mut back[..rows.back],
        &mut marks[..rows.marks],
    ))
}

fn make(plan: &mut Plan, call: Call) -> Answer
    requires { Fits call }
    ensures { Answered (contents plan.old) (asked call) (said result) (contents plan.new) }
{
    match call {
        Call::Register(handler) => Answer::Number(plan.register(handler)),
        Call::Join(first, second) => Answer::Done(plan.join(first, second)),
        Call::Reseat(number, core) => Answer::Done(plan.reseat(number, core)),
        Call::Check(rows) => checked(plan, rows),
    }
}

// The calls, made one after another on a new plan.
fn make_all(calls: &[Call; 12]) -> [Answer; 12]
    requires { All Fits calls.now }
    ensures { (k : Contents) × AllAnswered (map asked calls.now) (map said result) k }
{
    let mut plan = Plan::new();
    let mut answers = [Answer::Done(Ok(())); 12];
    for place in 0..12 {
        answers[place] = make(&mut plan, calls[place]);
    }
    answers
}

// Registers a handler on core 1 that works 1 unit or more.
fn on_core_one(period: u16, longest: u16) -> Call
    ensures { result ≡ on_core_one period longest }
{
    Call::Register(Handler {
        period,
        offset: 0,
        shortest: 1,
        longest,
        core: 1,
    })
}

fn check_with(front: usize, back: usize, marks: usize) -> Call
    ensures { result ≡ check_with front back marks }
{
    Call::Check(RowCounts { front, back, marks })
}

/// The calls of the mixture, in the order in which they are made.
pub fn calls() -> [Call; 12]
    ensures asks { map asked result ≡ asks }
    ensures fit { All Fits result }
{
    [
        check_with(1, 0, 1),
        check_with(0, 0, 1),
        on_core_one(0, 1),
        on_core_one(2, 1),
        check_with(1, 1, 1),
        check_with(1, 1, 0),
        Call::Join(1, 1),
        Call::Reseat(2, 2),
        Call::Reseat(1, 2),
        on_core_one(2, 3),
        Call::Join(1, 2),
        check_with(3, 3, 1),
    ]
}

/// Makes the calls of the mixture, one after another on a new plan, and hands out what they answer.
pub fn make_calls() -> [Answer; 12]
    ensures as_listed { map said result ≡ answers }
    ensures each_kind { SomeHistoryHasEachKind }
{
    make_all(&calls())
}
