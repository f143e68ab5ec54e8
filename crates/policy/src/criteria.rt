// Criteria: how two candidates rank on a core at a time.
ghost use Rattle.std.specs.Prelude.{◌≡◌, ℕ, ◌+◌, ◌-◌};
ghost use Rattle.std.specs.declared.cmp.Ordering.{Ordering};
ghost use Rattle.policy.specs.declared.cores.Core.{Core};
ghost use Rattle.policy.specs.declared.candidates.Candidate.{Candidate};
ghost use Rattle.policy.specs.Ranks.{SmallerAhead};
ghost use Rattle.policy.specs.Laws.{IsLawfulRanking};
ghost use Rattle.policy.specs.Deadlines.{distance, Next};
ghost use Rattle.policy.specs.Meanings.{by_number, by_period, by_distance};
ghost use Rattle.std.proofs.Common.{rules};
ghost use Rattle.policy.specs.Lawful.{by_distance_lawful};

use crate::candidates::Candidate;
use crate::cores::Core;
use std::cmp::Ordering;

/// Ranks any two candidates of a core at any time: `Less` where the first is ahead of the second, `Equal` where they
/// are level, `Greater` where it is behind. `ranks` is its meaning: nothing else enters an answer.
// A question is four parameters and no struct: the laws exchange two of them and move the fourth.
pub trait Criterion {
    ghost ranks: { Self → Core → Candidate → Candidate → ℕ → Ordering };

    fn compare(&self, core: Core, a: Candidate, b: Candidate, t: u64) -> Ordering
        ensures { result ≡ ranks self.now core a b t };

    ghost lawful: { (s : Self) → IsLawfulRanking (ranks s) };
}

/// Fixed priority, code 1: the smaller number is ahead.
#[derive(Clone, Copy)]
pub struct FixedPriority;

impl Criterion for FixedPriority {
    ghost ranks = { λ _. by_number };

    ghost lawful = { Prim.search rules };

    fn compare(&self, core: Core, a: Candidate, b: Candidate, t: u64) -> Ordering
        ensures value { result ≡ by_number core a b t }
        ensures sized { SmallerAhead result a.number b.number }
    {
        a.number().cmp(&b.number())
    }
}

// A type of its own beside `FixedPriority`: a trait for the number to compare by would be longer than what differs.
/// Rate-monotonic, code 2: the shorter period is ahead, and equal periods are level.
#[derive(Clone, Copy)]
pub struct RateMonotonic;

impl Criterion for RateMonotonic {
    ghost ranks = { λ _. by_period };

    ghost lawful = { Prim.search rules };

    fn compare(&self, core: Core, a: Candidate, b: Candidate, t: u64) -> Ordering
        ensures value { result ≡ by_period core a b t }
        ensures sized { SmallerAhead result a.period b.period }
    {
        a.period().cmp(&b.period())
    }
}

/// How far off the candidate's next deadline is at `t`: the least deadline after `t`, less `t`.
pub fn distance_at(x: Candidate, t: u64) -> u64
    ensures value { result ≡ distance x.period x.offset t }
    ensures next { Next x.period x.offset t (t + result) }
{
    // What is left to the offset, and of the period that `t` falls in.
    let (period, offset) = (u64::from(x.period()), u64::from(x.offset()));
    offset.saturating_sub(t) + (period - t.saturating_sub(offset) % period)
}

/// Earliest deadline first, code 3: the smaller distance is ahead, and equal distances are level.
#[derive(Clone, Copy)]
pub struct EarliestDeadline;

impl Criterion for EarliestDeadline {
    ghost ranks = { λ _. by_distance };

    ghost lawful = { λ s. by_distance_lawful };

    fn compare(&self, core: Core, a: Candidate, b: Candidate, t: u64) -> Ordering
        ensures value { result ≡ by_distance core a b t }
        ensures nearest { (d e : ℕ) → Next a.period a.offset t d → Next b.period b.offset t e → SmallerAhead result (d - t) (e - t) }
    {
        distance_at(a, t).cmp(&distance_at(b, t))
    }
}
