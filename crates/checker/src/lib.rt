// Checks: what is true of every run of a plan, found by following the states of one time to those of the next.
//
// A plan and a time go together in `Moment`, with what is found once a time. Discipline and state stay
// parameters: in a struct of all four `ready` would ask for a discipline and a time.
#![tactic(auto)]

ghost use Rattle.std.specs.Prelude.{◌≡◌, IfOk, MatchResult};
ghost use Rattle.gather.specs.Levels.{Tells};
ghost use Rattle.plan.specs.Contents.{contents};
ghost use Rattle.model.specs.Theorems.{VerdictsAreTrue};
ghost use Rattle.model.specs.Checks.{tables, Checks};
ghost use Rattle.model.specs.Outcomes.{VerdictHolds};
ghost use Rattle.model.specs.Laws.{ChecksCanBeTrusted};
ghost use Rattle.checker.specs.Watching.{Watches, unseen};

pub mod choosing;
pub mod following;
pub mod fronts;
pub mod given;
pub mod lateness;
pub mod moments;
pub mod observing;
mod priorities;
mod rounds;
pub mod serving;
mod sizes;
pub mod starting;

use crate::observing::Observer;
use crate::sizes::{judge_observed, judge_sized};
use model::states::State;
use model::verdicts::{Rows, Verdict};
use plan::plans::Plan;
use plan::refusals::Refusal;
use policy::disciplines::Discipline;

// The most rows that a table may have.
const MOST_ROWS: usize = 65_535;

/// The verdict on every run of the plan under the discipline, for the rows of the tables lent. `front` and `back` each
/// hold the states of one time, and `marks` those at mark times; a row holds a state where its first places are the times
/// left of the plan's handlers and the others 0. Whatever the rows hold before, the answer is the same.
///
/// After `Kept` the marks stand at the front of `marks`, one row each, in whatever order, and every row behind them is what
/// it was. All else is left free: `front` and `back` once there is a verdict, and `marks` after another one. A check is
/// refused where one of `front` and `back` is longer, or a table has more than 65,535 rows; then every row is what it was.
pub fn check<D: Discipline>(
    plan: &Plan,
    d: &D,
    front: &mut [State],
    back: &mut [State],
    marks: &mut [State],
) -> Result<Verdict, Refusal>
    ensures checks { Checks (contents plan.now) (D.first d.now)
        (tables front.old back.old marks.old) result (tables front.new back.new marks.new) }
    ensures holds { IfOk result (VerdictHolds (contents plan.now) (D.first d.now)
        (tables front.old back.old marks.old) (tables front.new back.new marks.new)) }
    // Verdicts are equal by `==` exactly where they are the same, and so are the rows that they name.
    ensures equality { Tells ⟦<Verdict as PartialEq>⟧.eq × Tells ⟦<Rows as PartialEq>⟧.eq }
    ensures verdicts { VerdictsAreTrue }
    ensures trusted { ChecksCanBeTrusted }
{
    if front.len() != back.len() || front.len() > MOST_ROWS || marks.len() > MOST_ROWS {
        return Err(Refusal::UnfitTables);
    }
    let verdict = judge_sized(plan, d, front, back, marks);
    Ok(verdict)
}

/// What came of a check, and what its observer became.
#[derive(Drop)]
pub struct Observed<O> {
    pub result: Result<Verdict, Refusal>,
    pub observer: O,
}

/// The same as `check`, while an observer looks on: it sees the states of each time from 0 to that
/// of the verdict, but for a time whose states do not fit. Where the check is refused it sees
/// nothing.
pub fn observe<D: Discipline, O: Observer>(
    plan: &Plan,
    d: &D,
    front: &mut [State],
    back: &mut [State],
    marks: &mut [State],
    observer: O,
) -> Observed<O>
    ensures checks { Checks (contents plan.now) (D.first d.now)
        (tables front.old back.old marks.old) result.result
        (tables front.new back.new marks.new) }
    ensures holds { IfOk result.result (VerdictHolds (contents plan.now) (D.first d.now)
        (tables front.old back.old marks.old) (tables front.new back.new marks.new)) }
    ensures watched { MatchResult result.result
        (λ v. Watches O.seen (contents plan.now) (D.first d.now) 0 observer
        (unseen (contents plan.now) v) result.observer)
        (λ _. result.observer ≡ observer) }
{
    if front.len() != back.len() || front.len() > MOST_ROWS || marks.len() > MOST_ROWS {
        return Observed {
            result: Err(Refusal::UnfitTables),
            observer,
        };
    }
    let judged = judge_observed(plan, d, front, back, marks, observer);
    Observed {
        result: Ok(judged.verdict),
        observer: judged.observer,
    }
}
