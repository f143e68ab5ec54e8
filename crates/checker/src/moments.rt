// Times, and what depends on the time alone.
ghost use Rattle.std.specs.Prelude.{◌≡◌, ◌-◌, ◌≤◌, Decides, MatchOption};
ghost use Rattle.std.specs.Option.{ForSome};
ghost use Rattle.policy.specs.Laws.{Choice};
ghost use Rattle.plan.specs.Contents.{contents, at, Known};
ghost use Rattle.model.specs.Units.{Starts};
ghost use Rattle.checker.specs.Starting.{SomebodyStarts, StartsAre, Quiet, NextStart};

use crate::moments::finding::find;
use crate::priorities::{MANY_STATES, Priorities};
use crate::serving::serve;
use model::states::State;
use plan::handlers::Handler;
use plan::plans::Plan;
use policy::disciplines::Discipline;

mod finding;

/// A time of a plan, with what depends on the time alone: it is found once a time, and not once a
/// state.
#[derive(Drop)]
pub struct Moment<'p> {
    pub(crate) plan: &'p Plan,
    pub(crate) time: u64,
    // The handlers that start at this time: a bit for each, by its place.
    pub(crate) starters: u64,
    // After this time nobody starts before so many units have gone.
    quiet: u64,
    // Made where there are many states for the first time.
    priorities: Option<Priorities<'p>>,
    ghost starting: { StartsAre (contents plan.now) time starters },
    ghost later: { 1 ≤ quiet },
    ghost still: { Quiet (contents plan.now) time quiet },
    ghost next: { NextStart (contents plan.now) time quiet },
    ghost one_plan: { ForSome priorities (λ order. order.plan.now ≡ plan.now) },
}

impl<'p> Moment<'p> {
    ghost use Rattle.model.specs.Units.{Served};
    ghost use Rattle.model.specs.Memory.{times, RestSame};
    ghost use Rattle.checker.specs.Rows.{Below};
    ghost use Rattle.checker.specs.Moments.{Calm, Due, LaterBy, Prepared};
    ghost use Rattle.checker.specs.Successors.{OnlySuccessor};

    /// Time 0 of a plan.
    pub fn new(plan: &'p Plan) -> Moment<'p>
        ensures of_plan { result.plan.now ≡ plan.now }
        ensures clock { result.time ≡ 0 }
    {
        let found = find(plan, 0);
        Moment {
            plan,
            time: 0,
            starters: found.starters,
            quiet: found.quiet,
            priorities: None,
        }
    }

    /// The plan whose time it is.
    pub fn plan(&self) -> &Plan
        ensures { result.now ≡ self.now.plan.now }
    {
        self.plan
    }

    /// The time itself, in units from 0.
    pub fn time(&self) -> u64
        ensures { result ≡ self.now.time }
    {
        self.time
    }

    /// How many units on, from this one, nobody starts; 0 where somebody starts at this time.
    pub fn calm(&self) -> u64
        ensures calm { Calm (contents self.now.plan.now) self.now.time result }
        ensures next { NextStart (contents self.now.plan.now) self.now.time result }
    {
        if self.starters == 0 { self.quiet } else { 0 }
    }

    /// So many units on. The clock stops at its end.
    pub fn go_on(&mut self, units: u64)
        ensures of_plan { self.new.plan.now ≡ self.old.plan.now }
        ensures clock { LaterBy units self.old.time self.new.time }
    {
        let time = self.time.saturating_add(units);
        // Fewer than were asked for where the clock stops.
        let gone = time - self.time;
        if gone >= self.quiet {
            let found = find(self.plan, time);
            self.time = time;
            self.starters = found.starters;
            self.quiet = found.quiet;
        } else if gone > 0 {
            self.time = time;
            self.starters = 0;
            self.quiet -= gone;
        }
    }

    // The handler of this number, if it starts at this time.
    pub(crate) fn starter(&self, number: u8) -> Option<Handler>
        ensures { MatchOption result
            (Known (contents self.now.plan.now) number
            × Starts (contents self.now.plan.now) self.now.time (number - 1) → ⊥)
            (λ h. Known (contents self.now.plan.now) number
            × Starts (contents self.now.plan.now) self.now.time (number - 1)
            × (h ≡ at (contents self.now.plan.now) (number - 1))) }
    {
        let handler = self.plan.handler(number)?;
        if self.starters >> (number - 1) & 1 == 1 {
            Some(handler)
        } else {
            None
        }
    }

    /// Whether a period of the handler of this number, not its first, begins at this time: then the
    /// period before ends.
    pub fn due(&self, number: u8) -> bool
        ensures { Decides result (Known (contents self.now.plan.now) number
            × Due (contents self.now.plan.now) self.now.time (number - 1)) }
    {
        match self.starter(number) {
            Some(handler) => self.time >= handler.offset as u64 + handler.period as u64,
            None => false,
        }
    }

    // Not inlined: else a check of few states would have the stack of what it never makes.
    #[inline(never)]
    fn begin_sorting(&mut self)
        ensures of_plan { self.new.plan.now ≡ self.old.plan.now }
        ensures clock { self.new.time ≡ self.old.time }
    {
        self.priorities = Some(Priorities::new(self.plan));
    }

    /// Makes ready for so many states: with many, the handlers of each core are put in their order.
    pub fn prepare<D: Discipline>(&mut self, d: &D, states: usize)
        ensures of_plan { self.new.plan.now ≡ self.old.plan.now }
        ensures clock { self.new.time ≡ self.old.time }
        ensures prepared { Prepared (D.first d.now) self.new }
    {
        if states >= MANY_STATES && self.priorities.is_none() {
            self.begin_sorting();
        }
        let time = self.time;
        if let Some(order) = &mut self.priorities {
            order.prepare(d, time, states);
        }
    }

    // The state after the unit that begins at this time, once its starts have been made. What was
    // prepared decides only who is served.
    pub(crate) fn serve<D: Discipline>(&self, d: &D, state: State) -> State
        ensures served { Prepared (D.first d.now) self.now →
            Served (contents self.now.plan.now) (D.first d.now) self.now.time
            (times (contents self.now.plan.now) state)
            (times (contents self.now.plan.now) result) }
        ensures fewer { Below result.left state.left }
        ensures rest { RestSame (contents self.now.plan.now) state result }
    {
        match &self.priorities {
            Some(order) => order.serve(d, self.time, state),
            None => serve(self.plan, d, self.time, state),
        }
    }

    /// The state that follows where nobody starts, the only one; `None` where somebody starts.
    pub fn follower<D: Discipline>(&self, d: &D, state: State) -> Option<State>
        ensures { Prepared (D.first d.now) self.now →
            MatchOption result
            (SomebodyStarts (contents self.now.plan.now) self.now.time)
            (OnlySuccessor (contents self.now.plan.now) (D.first d.now) self.now.time state) }
    {
        if self.starters != 0 {
            return None;
        }
        Some(self.serve(d, state))
    }
}
