// New plans, and new handlers.
ghost use Rattle.std.specs.Prelude.{◌≡◌, ◌+◌, List, IfOk, Ok, Err, Decides, MatchResult};
ghost use Rattle.plan.specs.Rows.{RoundIsLeastCommonMultiple};
ghost use Rattle.plan.specs.Contents.{contents, empty, round, ContentsTell, AllSound};
ghost use Rattle.plan.specs.Calls.{accepts, field_tests, added, Takes, Registers, Untouched, OneAnswer};
ghost use Rattle.plan.specs.Histories.{Call, After, accepted};

use crate::handlers::Handler;
use crate::multiples::least_common_multiple;
use crate::plans::Plan;
use crate::refusals::Refusal;
use policy::cores::Core;

// The most handlers that a plan may have.
const MOST_HANDLERS: u8 = 64;

// The longest that a round may be.
const LONGEST_ROUND: u32 = 16_777_216;

// What stands in the rows past the last handler.
const BLANK: Handler = Handler {
    period: 0,
    offset: 0,
    shortest: 0,
    longest: 0,
    core: 0,
};

fn test_fields(handler: Handler) -> Result<(), Refusal>
    ensures { field_tests handler (accepts tt) result }
{
    if handler.period == 0 {
        return Err(Refusal::NoPeriod);
    }
    if handler.shortest == 0 || handler.shortest > handler.longest {
        return Err(Refusal::NoTimes);
    }
    Core::new(handler.core).ok_or(Refusal::NoSuchCore)?;
    Ok(())
}

impl Plan {
    /// A plan with no handler.
    pub fn new() -> Plan
        ensures holds { contents result ≡ empty }
        ensures tell { ContentsTell }
        ensures one { OneAnswer }
        ensures sound { AllSound }
        ensures least { RoundIsLeastCommonMultiple }
        ensures told { (x y : Handler) → Decides (⟦<Handler as PartialEq>⟧.eq x y) (x ≡ y) }
    {
        Plan {
            count: 0,
            round: 1,
            settling: 0,
            handlers: [BLANK; 64],
            joins: [[false; 64]; 64],
        }
    }

    // The round with this handler added, if no test refuses it.
    fn round_with(&self, handler: Handler) -> Result<u32, Refusal>
        ensures { MatchResult result (λ m. Takes (contents self.now) handler × (m ≡ round (added (contents self.now) handler))) (λ e. Registers (contents self.now) handler (Err e) (contents self.now)) }
    {
        if self.count >= MOST_HANDLERS {
            return Err(Refusal::PlanFull);
        }
        test_fields(handler)?;
        let longer = least_common_multiple(self.round, handler.period.into(), LONGEST_ROUND);
        longer.ok_or(Refusal::LongRound)
    }

    /// Adds a handler at the end, and answers its number.
    pub fn register(&mut self, handler: Handler) -> Result<u8, Refusal>
        ensures registers { Registers (contents self.old) handler result (contents self.new) }
        ensures untouched { Untouched result self.old self.new }
        ensures nth { (calls : List Call) → After calls (contents self.old) → IfOk result (λ n. n ≡ accepted calls + 1) }
    {
        let round = self.round_with(handler)?;
        let mut handlers = self.handlers;
        handlers[self.count as usize] = handler;
        *self = Plan {
            count: self.count + 1,
            round,
            settling: self.settling.max(handler.offset),
            handlers,
            joins: self.joins,
        };
        Ok(self.count)
    }
}
