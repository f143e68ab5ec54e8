// What a check sees at each time up to that of its verdict.
ghost use Rattle.std.specs.Prelude.{◌-◌, Decides};
ghost use Rattle.plan.specs.Contents.{contents, Known};
ghost use Rattle.checker.specs.Fronts.{LateInOne, Lowest};
ghost use Rattle.account.specs.Tellings.{IsMarkTime, Marks, Tells};

use crate::wording::Many;
use checker::lateness::late;
use checker::moments;
use checker::observing::Observer;
use gather::lent::Lent;
use gather::tables::{Inserted, Table};
use model::states::State;
use model::verdicts::{Rows, Verdict};
use plan::plans::Plan;
use plan::refusals::Refusal;
use std::{fmt, io, mem};

// What happens at a time: somebody is late, or else, at a mark time, some of the states are new marks.
#[derive(Clone, Copy)]
enum Event {
    Nothing,
    Late(u8),
    NewMarks(usize),
    NoRoomForMarks,
}

// What is told of a time: how many states there are, which mark time it is, and what happens.
#[derive(Drop)]
struct Moment {
    time: u64,
    mark_time: Option<u64>,
    states: usize,
    event: Event,
}

// Only prints.
impl fmt::Display for Moment {
    fn fmt<W: fmt::Write>(&self, f: &mut fmt::Formatter<W>) -> fmt::Result {
        write!(f, "at {}", self.time)?;
        if let Some(k) = self.mark_time {
            write!(f, ", mark time {k}")?;
        }
        write!(f, ": {}", Many(self.states as u64, "state"))?;
        match self.event {
            Event::Nothing => Ok(()),
            Event::Late(number) => write!(f, ", handler {number} is late"),
            Event::NewMarks(0) => write!(f, ", no new mark"),
            Event::NewMarks(count) => write!(f, ", {}", Many(count as u64, "new mark")),
            Event::NoRoomForMarks => write!(f, ", more marks than mark rows"),
        }
    }
}

// Which mark time this is: so many rounds after the settling time.
fn mark_time(plan: &Plan, time: u64) -> Option<u64>
    ensures { IsMarkTime (contents plan.now) time result }
{
    let (settling, round) = (u64::from(plan.settling()), u64::from(plan.round()));
    let since = time.checked_sub(settling)?;
    if since.is_multiple_of(round) {
        Some(since / round)
    } else {
        None
    }
}

// Whether the handler of this number is late in one of the states.
fn late_in_one(plan: &Plan, time: u64, states: &[State], number: u8) -> bool
    ensures { Decides result (Known (contents plan.now) number
        × LateInOne (contents plan.now) time states.now (number - 1)) }
{
    states.iter().any(|state| late(plan, time, state, number))
}

// The lowest number that is late in one of the states.
fn lowest_late(plan: &Plan, time: u64, states: &[State]) -> Option<u8>
    ensures { Lowest (LateInOne (contents plan.now) time states.now) result }
{
    for place in 0..plan.count() {
        if late_in_one(plan, time, states, place + 1) {
            return Some(place + 1);
        }
    }
    None
}

// Puts the states of a mark time among the marks.
fn mark<M: Table<Item = State>>(states: &[State], marks: &mut M) -> Event
    ensures { Marks states.now (M.members marks.old) (M.room marks.old)
        result (M.members marks.new) }
{
    let before = marks.rows().len();
    for state in states {
        match marks.insert(state) {
            Inserted::New | Inserted::There => {}
            Inserted::Full => return Event::NoRoomForMarks,
        }
    }
    Event::NewMarks(marks.rows().len().saturating_sub(before))
}

impl Moment {
    fn of<M: Table<Item = State>>(plan: &Plan, time: u64, states: &[State], marks: &mut M) -> Moment
        ensures { Tells (contents plan.now) time states.now
            (M.members marks.old) (M.room marks.old) result (M.members marks.new) }
    {
        let mark_time = mark_time(plan, time);
        let event = match lowest_late(plan, time, states) {
            Some(number) => Event::Late(number),
            None if mark_time.is_some() => mark(states, marks),
            None => Event::Nothing,
        };
        Moment {
            time,
            mark_time,
            states: states.len(),
            event,
        }
    }
}

// Prints a line for each time that it sees, and has the marks up to then. It only prints: no
// function of it has a contract.
#[derive(Drop)]
pub(crate) struct Telling<'a> {
    rt: &'a HostRuntime,
    marks: Lent<'a, State>,
    // The first error, after which nothing is printed.
    printed: io::Result<()>,
}

impl<'a> Telling<'a> {
    // With these rows for the marks.
    pub(crate) fn new(rt: &'a HostRuntime, marks: &'a mut [State]) -> Telling<'a> {
        Telling {
            rt,
            marks: Lent::new(marks),
            printed: Ok(()),
        }
    }

    fn tell(&mut self, plan: &Plan, time: u64, states: &[State]) -> io::Result<()> {
        let moment = Moment::of(plan, time, states, &mut self.marks);
        println!(self.rt; "{moment}")
    }

    // Where the states of a time did not fit, prints a line for that time too, which was not seen.
    // Answers the first error of printing.
    pub(crate) fn end(&mut self, answer: &Result<Verdict, Refusal>) -> io::Result<()> {
        mem::replace(&mut self.printed, Ok(()))?;
        if let Ok(
            Verdict::RowsShort {
                rows: Rows::Working,
                time,
            },
        ) = *answer
        {
            println!(self.rt; "at {time}: more states than working rows")?;
        }
        Ok(())
    }
}

impl Observer for Telling<'_> {
    ghost seen = { λ _ _ _ _ _ _. Unit {0} };

    fn see(&mut self, moment: &moments::Moment, times: u64, states: &[State]) {
        let last = moment.time();
        let first = last.saturating_sub(times.saturating_sub(1));
        for time in first..=last {
            if self.printed.is_ok() {
                self.printed = self.tell(moment.plan(), time, states);
            }
        }
    }
}
