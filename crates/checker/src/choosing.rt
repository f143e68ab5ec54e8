// Who is ready, and who runs on a core.
ghost use Rattle.std.specs.Prelude.{◌≡◌, ℕ, ◌-◌, Decides, MatchOption};
ghost use Rattle.policy.specs.declared.cores.Core.{Core};
ghost use Rattle.plan.specs.Contents.{contents, at, Known, StandsFor};
ghost use Rattle.model.specs.Units.{left, Ready};
ghost use Rattle.model.specs.Memory.{times};
ghost use Rattle.checker.specs.Choosing.{Chosen, HoldsUp, number_at};

use model::states::State;
use plan::plans::Plan;
use policy::candidates::Candidate;
use policy::cores::Core;
use policy::disciplines::Discipline;

// Whether some handler that is joined before that of number `b` has time left.
fn waits(plan: &Plan, state: &State, b: u8) -> bool
    ensures { Decides result
        ((a : ℕ) × HoldsUp (contents plan.now) (times (contents plan.now) state.now) a b) }
{
    // By the place, from 0: `any` over `1..=count` takes twice as long here, and `time_left` would
    // test the place again. Most handlers have no time left, so that is asked first.
    (0..plan.count()).any(|i| state.left[i as usize] > 0 && plan.joined(i + 1, b))
}

/// Whether the handler of this number is ready: it has time left, and every handler joined before
/// it has none.
pub fn ready(plan: &Plan, state: &State, number: u8) -> bool
    ensures { Decides result (Known (contents plan.now) number
        × Ready (contents plan.now) (times (contents plan.now) state.now) (number - 1)) }
{
    plan.handler(number).is_some() && state.time_left(number) > 0 && !waits(plan, state, number)
}

// A handler as its core sees it, and that core.
#[derive(Clone, Copy)]
struct Seen {
    core: Core,
    candidate: Candidate,
}

// The handler of this number, if it has time left.
fn working(plan: &Plan, state: &State, number: u8) -> Option<Seen>
    ensures { MatchOption result
        (Known (contents plan.now) number →
        left (times (contents plan.now) state.now) (number - 1) ≡ 0)
        (λ x. ((at (contents plan.now) (number - 1)).core ≡ x.core.number)
        × StandsFor x.candidate (contents plan.now) number) }
{
    if state.time_left(number) == 0 {
        return None;
    }
    let handler = plan.handler(number)?;
    let core = Core::new(handler.core)?;
    let candidate = plan.candidate(number)?;
    Some(Seen { core, candidate })
}

// For each core, by its place, the handler that runs there at `t`.
pub(crate) fn firsts<D: Discipline>(
    plan: &Plan,
    d: &D,
    t: u64,
    state: &State,
) -> [Option<Candidate>; 8]
    ensures { (c : Core) → Chosen (contents plan.now) (D.first d.now) t
        (times (contents plan.now) state.now) c (number_at result c) }
{
    // One pass for all cores. Readiness is asked last, since that looks at every handler.
    let mut best: [Option<Candidate>; 8] = [None; 8];
    for place in 0..plan.count() {
        if let Some(next) = working(plan, state, place + 1) {
            let Seen { core, candidate } = next;
            let slot = core.place();
            let beaten = best[slot].is_some_and(|first| d.goes_first(core, first, candidate, t));
            if !beaten && ready(plan, state, place + 1) {
                best[slot] = Some(candidate);
            }
        }
    }
    best
}

// The number of the handler that a table of the firsts has for the core.
pub(crate) fn number_on(firsts: &[Option<Candidate>; 8], core: Core) -> Option<u8>
    ensures { result ≡ number_at firsts.now core }
{
    firsts[core.place()].map(|first| first.number())
}

/// The number of the handler that runs on the core at `t`; `None` where no handler there is ready,
/// and the core idles.
pub fn choice<D: Discipline>(plan: &Plan, d: &D, core: Core, t: u64, state: &State) -> Option<u8>
    ensures { Chosen (contents plan.now) (D.first d.now) t
        (times (contents plan.now) state.now) core result }
{
    number_on(&firsts(plan, d, t, state), core)
}
