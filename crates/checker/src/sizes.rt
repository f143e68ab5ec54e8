// Tables in sizes chosen by the states that there are.
ghost use Rattle.std.specs.Prelude.{◌≡◌, ◌<◌, ◌≤◌, Ok, MatchOption, length};
ghost use Rattle.gather.specs.Filing.{FitsIndex};
ghost use Rattle.plan.specs.Contents.{contents};
ghost use Rattle.model.specs.Checks.{tables, most_rows, Checks};
ghost use Rattle.checker.specs.Watching.{Watches, unseen};

use crate::observing::{Nobody, Observer};
use crate::rounds::{Judged, judge};
use gather::indexed::Indexed;
use model::states::State;
use model::verdicts::Verdict;
use plan::plans::Plan;
use policy::disciplines::Discipline;

// An index has as many places as one of these sizes. Making the largest takes longer than most
// checks do, and most plans have few states, however many rows there are.
const FEW: usize = 128;

const SOME: usize = 2_048;

const MANY: usize = 16_384;

const MOST: usize = 65_536;

// The verdict on the tables, found with the smallest index that the states fit.
pub(crate) fn judge_sized<D: Discipline>(
    plan: &Plan,
    d: &D,
    front: &mut [State],
    back: &mut [State],
    marks: &mut [State],
) -> Verdict
    requires same { length front.old ≡ length back.old }
    requires few { length front.old ≤ most_rows }
    requires few_marks { length marks.old ≤ most_rows }
    ensures { Checks (contents plan.now) (D.first d.now)
        (tables front.old back.old marks.old) (Ok result) (tables front.new back.new marks.new) }
{
    let rows = front.len().max(marks.len());
    if rows <= FEW {
        return judge_within::<D, FEW>(plan, d, front, back, marks);
    }
    if rows <= SOME {
        return judge_within::<D, SOME>(plan, d, front, back, marks);
    }
    if let Some(verdict) = attempt::<D, SOME>(plan, d, front, back, marks) {
        return verdict;
    }
    if rows <= MANY {
        return judge_within::<D, MANY>(plan, d, front, back, marks);
    }
    if let Some(verdict) = attempt::<D, MANY>(plan, d, front, back, marks) {
        return verdict;
    }
    judge_within::<D, MOST>(plan, d, front, back, marks)
}

// The verdict on no more than `N` rows of each table, if it is the verdict on all rows too. It is
// unless the rows are short: then the mark table is what it was. Marks are gathered in rows of
// `front` behind the working rows, since nothing may be written behind those that `marks` keeps.
fn attempt<D: Discipline, const N: usize>(
    plan: &Plan,
    d: &D,
    front: &mut [State],
    back: &mut [State],
    marks: &mut [State],
) -> Option<Verdict>
    requires same { length front.old ≡ length back.old }
    requires few { length front.old ≤ most_rows }
    requires few_marks { length marks.old ≤ most_rows }
    requires some { 0 < N }
    requires small { N ≤ 65536 }
    ensures front { length front.new ≡ length front.old }
    ensures back { length back.new ≡ length back.old }
    ensures answers { MatchOption result (marks.new ≡ marks.old) (λ v.
        Checks (contents plan.now) (D.first d.now)
        (tables front.old back.old marks.old) (Ok v) (tables front.new back.new marks.new)) }
{
    let rows = (front.len() / 2).min(N);
    let room = marks.len().min(rows);
    let (working, spare) = front.split_at_mut(rows);
    let found = &mut spare[..room];
    let verdict = judge_within::<D, N>(plan, d, working, &mut back[..rows], found);
    match verdict {
        Verdict::Kept { marks: count, .. } => {
            let count = count as usize;
            marks[..count].copy_from_slice(&found[..count]);
            Some(verdict)
        }
        Verdict::Missed { .. } => Some(verdict),
        Verdict::RowsShort { .. } => None,
    }
}

// The verdict on the tables while an observer looks on, found with an index for all rows: what is
// seen twice cannot be taken back.
pub(crate) fn judge_observed<D: Discipline, O: Observer>(
    plan: &Plan,
    d: &D,
    front: &mut [State],
    back: &mut [State],
    marks: &mut [State],
    observer: O,
) -> Judged<O>
    requires same { length front.old ≡ length back.old }
    requires few { length front.old ≤ most_rows }
    requires few_marks { length marks.old ≤ most_rows }
    ensures checks { Checks (contents plan.now) (D.first d.now)
        (tables front.old back.old marks.old) (Ok result.verdict)
        (tables front.new back.new marks.new) }
    ensures watched { Watches O.seen (contents plan.now) (D.first d.now) 0 observer
        (unseen (contents plan.now) result.verdict) result.observer }
{
    let rows = front.len().max(marks.len());
    if rows <= FEW {
        return judge_watched::<D, O, FEW>(plan, d, front, back, marks, observer);
    }
    if rows <= SOME {
        return judge_watched::<D, O, SOME>(plan, d, front, back, marks, observer);
    }
    if rows <= MANY {
        return judge_watched::<D, O, MANY>(plan, d, front, back, marks, observer);
    }
    judge_watched::<D, O, MOST>(plan, d, front, back, marks, observer)
}

// The verdict on tables of no more than so many rows.
fn judge_within<D: Discipline, const N: usize>(
    plan: &Plan,
    d: &D,
    front: &mut [State],
    back: &mut [State],
    marks: &mut [State],
) -> Verdict
    requires same { length front.old ≡ length back.old }
    requires few { length front.old ≤ most_rows }
    requires few_marks { length marks.old ≤ most_rows }
    requires within { length front.old ≤ N }
    requires marks_within { length marks.old ≤ N }
    requires some { 0 < N }
    requires small { N ≤ 65536 }
    ensures { Checks (contents plan.now) (D.first d.now)
        (tables front.old back.old marks.old) (Ok result) (tables front.new back.new marks.new) }
{
    judge_watched::<D, Nobody, N>(plan, d, front, back, marks, Nobody).verdict
}

// The same while an observer looks on, each table with an index of so many places.
// Not inlined: else each check would have the stack of the largest index.
#[inline(never)]
fn judge_watched<D: Discipline, O: Observer, const N: usize>(
    plan: &Plan,
    d: &D,
    front: &mut [State],
    back: &mut [State],
    marks: &mut [State],
    observer: O,
) -> Judged<O>
    requires same { length front.old ≡ length back.old }
    requires few { length front.old ≤ most_rows }
    requires few_marks { length marks.old ≤ most_rows }
    requires within { length front.old ≤ N }
    requires marks_within { length marks.old ≤ N }
    requires some { 0 < N }
    requires small { N ≤ 65536 }
    ensures checks { Checks (contents plan.now) (D.first d.now)
        (tables front.old back.old marks.old) (Ok result.verdict)
        (tables front.new back.new marks.new) }
    ensures watched { Watches O.seen (contents plan.now) (D.first d.now) 0 observer
        (unseen (contents plan.now) result.verdict) result.observer }
{
    let (mut heads, mut homes, mut next) = ([0; N], [0; N], [0; N]);
    let (mut heads_back, mut homes_back, mut next_back) = ([0; N], [0; N], [0; N]);
    let (mut heads_marks, mut homes_marks, mut next_marks) = ([0; N], [0; N], [0; N]);
    let front = indexed(front, &mut heads, &mut homes, &mut next);
    let back = indexed(back, &mut heads_back, &mut homes_back, &mut next_back);
    let mut marks = indexed(marks, &mut heads_marks, &mut homes_marks, &mut next_marks);
    judge(plan, d, front, back, &mut marks, observer)
}

// A table of these rows, with an index that does for them.
fn indexed<'a>(
    rows: &'a mut [State],
    heads: &'a mut [u16],
    homes: &'a mut [u16],
    next: &'a mut [u16],
) -> Indexed<'a, State>
    requires { FitsIndex rows.old heads.old homes.old next.old }
    ensures whole { result.rows.now ≡ rows.old }
    ensures lent { result.rows.ghost_name ≡ rows.entry.ghost_name }
{
    Indexed::new(rows, heads, homes, next).unwrap()
}
