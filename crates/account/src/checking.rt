// The plan of a sample, checked.
ghost use Rattle.std.specs.Prelude.{◌≡◌, IfOk, IsOk, MatchResult};
ghost use Rattle.plan.specs.Contents.{contents};
ghost use Rattle.samples.specs.Plans.{Known, plan_of};
ghost use Rattle.model.specs.Checks.{tables};
ghost use Rattle.account.specs.declared.checking.Trouble.TheVariants.{Refused, Memory};
ghost use Rattle.account.specs.Accounts.{SizedFor, FindsKnown, AsKnown, counted};

use crate::moments::Telling;
use checker::{Observed, observe};
use model::states::State;
use model::verdicts::Verdict;
use plan::plans::Plan;
use plan::refusals::Refusal;
use policy::codes::code_bank;
use samples::Sample;
use std::alloc::{AllocError, Global};
use std::{io, mem};
use thiserror::Error;

/// Why a sample is not checked.
#[derive(Debug, Drop, Error)]
pub(crate) enum Trouble {
    #[error("refused with {}: {}", .0.number(), .0)]
    Refused(Refusal),
    #[error("out of memory")]
    Memory,
}

// By hand and not by `#[from]`, whose impls have no contract: a clause says which error a `?` passes on.
impl From<Refusal> for Trouble {
    ghost from_gives = { λ refusal e. e ≡ Refused refusal };

    fn from(e: Refusal) -> Trouble {
        Trouble::Refused(e)
    }
}

impl From<AllocError> for Trouble {
    ghost from_gives = { λ _ e. e ≡ Memory };

    fn from(_e: AllocError) -> Trouble {
        Trouble::Memory
    }
}

// The tables of a check: two working tables, and the mark table.
#[derive(Drop)]
pub(crate) struct Tables {
    pub(crate) front: Vec<State>,
    pub(crate) back: Vec<State>,
    pub(crate) marks: Vec<State>,
}

impl Tables {
    // Tables of as many rows as the sample names.
    pub(crate) fn of(heap: Global, sample: &Sample) -> Result<Tables, AllocError>
        ensures { IfOk result (λ t. SizedFor sample.now
            (tables t.front.items t.back.items t.marks.items)) }
    {
        Ok(Tables {
            front: vec![in heap; State::new(); sample.working.into()]?,
            back: vec![in heap; State::new(); sample.working.into()]?,
            marks: vec![in heap; State::new(); sample.marks.into()]?,
        })
    }
}

// Makes the plan of the sample by its calls.
pub(crate) fn made(sample: &Sample) -> Result<Plan, Trouble>
    ensures holds { IfOk result (λ p. contents p ≡ plan_of sample.now) }
    ensures accepted { Known sample.now → IsOk result }
{
    let plan = sample.plan()?;
    Ok(plan)
}

// What came of a check, and the first error of telling of it.
#[derive(Drop)]
struct Told {
    result: Result<Verdict, Refusal>,
    printed: io::Result<()>,
}

// Checks the plan of the sample under its codes, and tells of each time; `rows` are for the marks
// up to then.
fn judge<'a>(
    rt: &'a HostRuntime,
    sample: &Sample,
    plan: &Plan,
    front: &mut [State],
    back: &mut [State],
    marks: &mut [State],
    rows: &'a mut [State],
) -> Told
    ensures { Known sample.now → contents plan.now ≡ plan_of sample.now
        → SizedFor sample.now (tables front.old back.old marks.old)
        → FindsKnown sample.now result.result marks.new }
{
    let bank = code_bank(&sample.codes);
    let telling = Telling::new(rt, rows);
    let Observed {
        result,
        mut observer,
    } = observe(plan, &bank, front, back, marks, telling);
    let printed = observer.end(&result);
    Told { result, printed }
}

// A sample's plan, the verdict on it, the tables as the check left them, and the first error of
// telling of the check.
#[derive(Drop)]
pub(crate) struct Checked {
    pub(crate) plan: Plan,
    pub(crate) verdict: Verdict,
    tables: Tables,
    printed: io::Result<()>,
}

impl Checked {
    // Checks the sample's plan under the codes of the sample, with as many rows as it names, and
    // prints a line for each time up to the one that gives the verdict.
    pub(crate) fn of(rt: &HostRuntime, sample: &Sample, plan: Plan) -> Result<Checked, Trouble>
        ensures known { Known sample.now → contents plan ≡ plan_of sample.now
            → MatchResult result (AsKnown sample.now) (λ e. e ≡ Memory) }
    {
        let mut tables = Tables::of(rt.alloc(), sample)?;
        let mut rows = vec![in rt.alloc(); State::new(); sample.marks.into()]?;
        let Told { result, printed } = judge(
            rt,
            sample,
            &plan,
            &mut tables.front,
            &mut tables.back,
            &mut tables.marks,
            &mut rows,
        );
        let verdict = result?;
        Ok(Checked {
            plan,
            verdict,
            tables,
            printed,
        })
    }

    // The first error of printing those lines.
    pub(crate) fn printed(&mut self) -> io::Result<()>
        ensures plan { self.new.plan ≡ self.old.plan }
        ensures verdict { self.new.verdict ≡ self.old.verdict }
        ensures tables { self.new.tables ≡ self.old.tables }
    {
        mem::replace(&mut self.printed, Ok(()))
    }

    // The marks, where the verdict is kept: as many rows as it counts, from the front.
    pub(crate) fn marks(&self) -> &[State]
        ensures { result.now ≡ counted self.now.verdict self.now.tables.marks.items }
    {
        match self.verdict {
            Verdict::Kept { marks, .. } => {
                let count = self.tables.marks.len().min(marks as usize);
                &self.tables.marks[..count]
            }
            Verdict::Missed { .. } | Verdict::RowsShort { .. } => &[],
        }
    }
}
