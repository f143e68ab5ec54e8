// Disciplines: which of two candidates with different numbers goes first.
ghost use Rattle.std.specs.Prelude.{◌≡◌, ℕ, Bool};
ghost use Rattle.policy.specs.declared.cores.Core.{Core};
ghost use Rattle.policy.specs.declared.candidates.Candidate.{Candidate};
ghost use Rattle.policy.specs.Laws.{IsLawfulChoice};
ghost use Rattle.policy.specs.Meanings.{numbered};
ghost use Rattle.policy.specs.Lawful.{numbered_lawful};

use crate::candidates::Candidate;
use crate::cores::Core;
use crate::criteria::Criterion;

/// Chooses between any two candidates of a core at any time. `first` is its meaning: nothing else enters an answer.
pub trait Discipline {
    ghost first: { Self → Core → Candidate → Candidate → ℕ → Bool };

    /// Whether `a` goes before `b`.
    fn goes_first(&self, core: Core, a: Candidate, b: Candidate, t: u64) -> bool
        ensures { result ≡ first self.now core a b t };

    ghost lawful: { (s : Self) → IsLawfulChoice (first s) };
}

/// Numbering: the candidate that the criterion has ahead goes first, and the smaller number where they are level.
#[derive(Drop)]
pub struct Numbered<C> {
    pub criterion: C,
}

impl<C: Criterion> Discipline for Numbered<C> {
    ghost first = { λ s. numbered (C.Criterion.ranks s.criterion) };

    ghost lawful = { λ s. numbered_lawful (C.Criterion.ranks s.criterion) (C.Criterion.lawful s.criterion) };

    fn goes_first(&self, core: Core, a: Candidate, b: Candidate, t: u64) -> bool {
        let rank = self.criterion.compare(core, a, b, t);
        rank.then(a.number().cmp(&b.number())).is_lt()
    }
}
