// From time to time, and from mark to mark, with the states of each time in a table.
ghost use Rattle.std.specs.Prelude.{◌≡◌, ℕ, ◌<◌, ◌≤◌, ◌∷◌, [], true, MatchResult};
ghost use Rattle.plan.specs.Contents.{contents, round, settling};
ghost use Rattle.model.specs.declared.verdicts.Verdict.TheVariants.{RowsShort};
ghost use Rattle.model.specs.Verdicts.{VerdictIs};
ghost use Rattle.checker.specs.Moments.{Calm};
ghost use Rattle.checker.specs.Fronts.{idle};
ghost use Rattle.model.specs.Checks.{most_rows, KeptRows};
ghost use Rattle.checker.specs.Walks.{is_kept, SamePlan, GoesOn, Walks, Settles, Rounded, Ended};
ghost use Rattle.checker.specs.Watching.{Watches, unseen};

use crate::fronts::{advance, begin, first_late, is_idle};
use crate::moments::Moment;
use crate::observing::Observer;
use gather::tables::Table;
use gather::{Halt, Rule, gather_into};
use model::states::State;
use model::verdicts::{Rows, Verdict};
use plan::plans::Plan;
use policy::disciplines::Discipline;
use std::mem;

// The states of a plan at a time, in `front`; `back` is room for those of the next. The observer has
// seen them.
#[derive(Drop)]
struct Rounds<'p, 'd, D, W, O> {
    moment: Moment<'p>,
    d: &'d D,
    front: W,
    back: W,
    observer: O,
}

fn short(rows: Rows, time: u64) -> Verdict
    ensures { result ≡ RowsShort rows time }
{
    Verdict::RowsShort { rows, time }
}

impl<'p, 'd, D: Discipline, W: Table<Item = State> + Drop, O: Observer> Rounds<'p, 'd, D, W, O> {
    fn time(&self) -> u64
        ensures { result ≡ self.now.moment.time }
    {
        self.moment.time()
    }

    fn hyperperiod(&self) -> u32
        ensures { result ≡ round (contents self.now.moment.plan.now) }
    {
        self.moment.plan().round()
    }

    fn settling(&self) -> u16
        ensures { result ≡ settling (contents self.now.moment.plan.now) }
    {
        self.moment.plan().settling()
    }

    // One unit on, in the order of the tests: whether the states fit is known before who is late.
    fn unit(&mut self) -> Result<(), Verdict>
        ensures same { SamePlan D.first W.members W.room O.seen self.old self.new }
        ensures walks { Walks D.first W.members W.room O.seen 1 self.old self.new result }
    {
        // Saturates, since nothing here bounds how often it is called; no check comes near the end
        // of its clock.
        let next = self.moment.time().saturating_add(1);
        let filled = advance(&mut self.moment, self.d, &self.front, &mut self.back);
        filled.map_err(|_| short(Rows::Working, next))?;
        mem::swap(&mut self.front, &mut self.back);
        self.moment.go_on(1);
        self.observer.see(&self.moment, 1, self.front.rows());
        match first_late(&self.moment, &self.front) {
            None => Ok(()),
            Some(number) => Err(Verdict::Missed { time: next, number }),
        }
    }

    // For how many units nothing happens, so many at most: nobody has time left, and nobody starts.
    fn idle_for(&self, most: u32) -> u32
        ensures most { result ≤ most }
        ensures idle { 0 < result → W.members self.now.front ≡ idle ∷ [] }
        ensures calm { Calm (contents self.now.moment.plan.now) self.now.moment.time result }
    {
        let calm = self.moment.calm();
        if calm > 0 && is_idle(&self.front) {
            calm.min(most.into()) as u32
        } else {
            0
        }
    }

    // One unit on, or at once all those in which nothing happens, but no more than so many; tells
    // how many.
    fn go_on(&mut self, most: u32) -> Result<u32, Verdict>
        requires { 1 ≤ most }
        ensures same { SamePlan D.first W.members W.room O.seen self.old self.new }
        ensures goes { GoesOn D.first W.members W.room O.seen most self.old self.new result }
    {
        let idle = self.idle_for(most);
        if idle == 0 {
            self.unit()?;
            return Ok(1);
        }
        self.moment.go_on(idle.into());
        self.observer
            .see(&self.moment, idle.into(), self.front.rows());
        Ok(idle)
    }

    // So many units on, or fewer where a verdict comes.
    fn walk(&mut self, units: u32) -> Result<(), Verdict>
        ensures same { SamePlan D.first W.members W.room O.seen self.old self.new }
        ensures walks { Walks D.first W.members W.room O.seen units self.old self.new result }
    {
        let mut left = units;
        while left > 0 {
            left -= self.go_on(left)?;
        }
        Ok(())
    }

    // The verdict, with the observer given back.
    fn judged(self, verdict: Verdict) -> Judged<O>
        ensures verdict { result.verdict ≡ verdict }
        ensures observer { result.observer ≡ self.entry.observer }
    {
        let Rounds { observer, .. } = self;
        Judged { verdict, observer }
    }

    // A whole round on.
    fn round(&mut self) -> Result<(), Verdict>
        ensures { MatchResult result
            (λ _. Rounded D.first W.members W.room O.seen self.old self.new)
            (λ v. Ended D.first W.members W.room O.seen self.old v self.new) }
    {
        let units = self.hyperperiod();
        self.walk(units)
    }

    // From time 0 to the settling time.
    fn settle(&mut self) -> Result<(), Verdict>
        ensures same { SamePlan D.first W.members W.room O.seen self.old self.new }
        ensures settles { Settles D.first W.members W.room O.seen self.old self.new result }
    {
        begin(&mut self.front).map_err(|_| short(Rows::Working, 0))?;
        self.observer.see(&self.moment, 1, self.front.rows());
        let units = self.settling();
        self.walk(units.into())
    }
}

impl<D: Discipline, W: Table<Item = State> + Drop, O: Observer> Rule for Rounds<'_, '_, D, W, O> {
    type Item = State;

    type Fault = Verdict;

    ghost shows = { λ s. W.members s.front };

    ghost steps = { Rounded D.first W.members W.room O.seen };

    ghost halts = { Ended D.first W.members W.room O.seen };

    fn level(&self) -> &[State] {
        self.front.rows()
    }

    fn advance(&mut self) -> Result<(), Verdict> {
        self.round()
    }
}

// A verdict, and what the observer became.
#[derive(Drop)]
pub(crate) struct Judged<O> {
    pub(crate) verdict: Verdict,
    pub(crate) observer: O,
}

pub(crate) fn judge<
    D: Discipline,
    W: Table<Item = State> + Drop,
    M: Table<Item = State>,
    O: Observer,
>(plan: &Plan, d: &D, front: W, back: W, marks: &mut M, observer: O) -> Judged<O>
    ensures verdict { W.room front ≡ W.room back → M.room marks.old ≤ most_rows
        → VerdictIs (contents plan.now) (D.first d.now) (W.room front) (M.room marks.old)
        result.verdict }
    ensures marks { W.room front ≡ W.room back → M.room marks.old ≤ most_rows
        → KeptRows (contents plan.now) (D.first d.now) result.verdict (M.members marks.new) }
    ensures frame { W.room front ≡ W.room back → M.room marks.old ≤ most_rows
        → is_kept result.verdict ≡ true
        → (s : M) × M.emptied marks.old s × M.extended s marks.new }
    ensures watched { W.room front ≡ W.room back → M.room marks.old ≤ most_rows
        → Watches O.seen (contents plan.now) (D.first d.now) 0 observer
        (unseen (contents plan.now) result.verdict) result.observer }
{
    let mut rounds = Rounds {
        moment: Moment::new(plan),
        d,
        front,
        back,
        observer,
    };
    match rounds.settle() {
        Ok(()) => {}
        Err(verdict) => return rounds.judged(verdict),
    }
    match gather_into(&mut rounds, marks) {
        Ok(closed) => rounds.judged(Verdict::Kept {
            rounds: closed.levels as u64,
            marks: closed.count as u64,
        }),
        Err(Halt::Full { .. }) => {
            let time = rounds.time();
            rounds.judged(short(Rows::Marks, time))
        }
        Err(Halt::Fault { fault, .. }) => rounds.judged(fault),
    }
}
