// Plans and verdicts in words. What only prints, or has words for a value, has no contract.
ghost use Rattle.std.specs.Prelude.{◌≡◌, ℕ, Decides};
ghost use Rattle.policy.specs.declared.codes.Code.TheVariants.{FixedPriority};
ghost use Rattle.plan.specs.Contents.{contents};
ghost use Rattle.account.specs.Tellings.{IsOn};

use model::states::State;
use model::verdicts::{Rows, Verdict};
use plan::handlers::Handler;
use plan::plans::Plan;
use policy::codes::Code;
use policy::cores::Core;
use samples::Sample;
use std::{fmt, io};

// So many things of this name.
#[derive(Clone, Copy)]
pub(crate) struct Many(pub(crate) u64, pub(crate) &'static str);

impl fmt::Display for Many {
    fn fmt<W: fmt::Write>(&self, f: &mut fmt::Formatter<W>) -> fmt::Result {
        write!(
            f,
            "{} {}{}",
            self.0,
            self.1,
            if self.0 == 1 { "" } else { "s" }
        )
    }
}

// Which table is short.
fn table(rows: Rows) -> &'static str {
    match rows {
        Rows::Working => "working",
        Rows::Marks => "marks",
    }
}

// A verdict, in words and numbers.
#[derive(Clone, Copy)]
pub(crate) struct Said(pub(crate) Verdict);

impl fmt::Display for Said {
    fn fmt<W: fmt::Write>(&self, f: &mut fmt::Formatter<W>) -> fmt::Result {
        match self.0 {
            Verdict::Kept { rounds, marks } => write!(f, "kept {rounds} {marks}"),
            Verdict::Missed { time, number } => write!(f, "missed {time} {number}"),
            Verdict::RowsShort { rows, time } => {
                write!(f, "rows short, {}, {time}", table(rows))
            }
        }
    }
}

// What the verdict on the plan of a sample means.
#[derive(Clone, Copy)]
pub(crate) struct Meaning<'s> {
    pub(crate) sample: &'s Sample,
    pub(crate) verdict: Verdict,
}

impl fmt::Display for Meaning<'_> {
    fn fmt<W: fmt::Write>(&self, f: &mut fmt::Formatter<W>) -> fmt::Result {
        match self.verdict {
            Verdict::Kept { rounds, marks } => {
                let (rounds, are) = (Many(rounds, "round"), if marks == 1 { "is" } else { "are" });
                write!(
                    f,
                    "no run is ever late: after {rounds} no new mark came, and there {are} {marks}"
                )
            }
            Verdict::Missed { time, number } => write!(
                f,
                "some run is late at time {time}, and none before; the lowest number late then is {number}"
            ),
            Verdict::RowsShort { rows, time } => {
                let (found, room) = match rows {
                    Rows::Working => ("states", self.sample.working),
                    Rows::Marks => ("marks", self.sample.marks),
                };
                write!(
                    f,
                    "the tables are too short to tell: at time {time} there are more {found} than a table of {} holds",
                    Many(room.into(), "row")
                )
            }
        }
    }
}

fn name(code: Code) -> &'static str {
    match code {
        Code::FixedPriority => "fixed priority",
        Code::RateMonotonic => "rate-monotonic",
        Code::EarliestDeadline => "earliest deadline first",
    }
}

fn is_fixed(code: Code) -> bool
    ensures { Decides result (code ≡ FixedPriority) }
{
    matches!(code, Code::FixedPriority)
}

// From the shortest to the longest time.
#[derive(Clone, Copy)]
struct Times(u16, u16);

impl fmt::Display for Times {
    fn fmt<W: fmt::Write>(&self, f: &mut fmt::Formatter<W>) -> fmt::Result {
        if self.0 == self.1 {
            write!(f, "{}", self.0)
        } else {
            write!(f, "{} to {}", self.0, self.1)
        }
    }
}

// The numbers of a handler.
#[derive(Clone, Copy)]
pub(crate) struct Numbers(pub(crate) Handler);

impl fmt::Display for Numbers {
    fn fmt<W: fmt::Write>(&self, f: &mut fmt::Formatter<W>) -> fmt::Result {
        let times = Times(self.0.shortest, self.0.longest);
        let (core, period, offset) = (self.0.core, self.0.period, self.0.offset);
        write!(
            f,
            "core {core}, works {times}, period {period}, offset {offset}"
        )
    }
}

fn show_handlers(rt: &HostRuntime, plan: &Plan) -> io::Result<()> {
    if plan.count() == 0 {
        println!(rt; "no handler")?;
    }
    for number in 1..=plan.count() {
        if let Some(handler) = plan.handler(number) {
            println!(rt; "handler {number}: {}", Numbers(handler))?;
        }
    }
    Ok(())
}

fn show_joins(rt: &HostRuntime, plan: &Plan, first: u8) -> io::Result<()> {
    for second in (1..=plan.count()).filter(|second| plan.joined(first, *second)) {
        println!(rt; "join {first} before {second}")?;
    }
    Ok(())
}

fn show_all_joins(rt: &HostRuntime, plan: &Plan) -> io::Result<()> {
    for first in 1..=plan.count() {
        show_joins(rt, plan, first)?;
    }
    Ok(())
}

// Whether the handler of this number is on the core.
fn is_on(plan: &Plan, number: u8, core: Core) -> bool
    ensures { Decides result (IsOn (contents plan.now) core number) }
{
    plan.handler(number)
        .is_some_and(|handler| handler.core == core.number())
}

// Whether some handler is on the core.
fn in_use(plan: &Plan, core: Core) -> bool
    ensures { Decides result ((n : ℕ) × IsOn (contents plan.now) core n) }
{
    (0..plan.count()).any(|place| is_on(plan, place + 1, core))
}

fn show_codes(rt: &HostRuntime, plan: &Plan, codes: &[Code; 8]) -> io::Result<()> {
    if codes.iter().all(|code| is_fixed(*code)) {
        return Ok(());
    }
    for core in Core::all() {
        if in_use(plan, core) {
            println!(rt; "core {} by {}", core.number(), name(codes[core.place()]))?;
        }
    }
    Ok(())
}

// Prints a line for each handler and each join, and, unless every core goes by fixed priority, for each core in use.
pub(crate) fn show_plan(rt: &HostRuntime, plan: &Plan, codes: &[Code; 8]) -> io::Result<()> {
    show_handlers(rt, plan)?;
    show_all_joins(rt, plan)?;
    show_codes(rt, plan, codes)
}

// Prints the settling time, the round, and the rows of the tables.
pub(crate) fn show_sizes(rt: &HostRuntime, plan: &Plan, sample: &Sample) -> io::Result<()> {
    println!(rt;
        "settling time {}, round {}, working rows {}, mark rows {}",
        plan.settling(),
        plan.round(),
        sample.working,
        sample.marks
    )
}

// Prints the time left of each handler in a mark.
fn show_mark(rt: &HostRuntime, plan: &Plan, mark: &State) -> io::Result<()> {
    print!(rt; "mark: times left")?;
    if plan.count() == 0 {
        print!(rt; " none")?;
    }
    for number in 1..=plan.count() {
        print!(rt; " {}", mark.time_left(number))?;
    }
    println!(rt; "")
}

// Prints a line for each mark.
pub(crate) fn show_marks(rt: &HostRuntime, plan: &Plan, marks: &[State]) -> io::Result<()> {
    for mark in marks {
        show_mark(rt, plan, mark)?;
    }
    Ok(())
}
