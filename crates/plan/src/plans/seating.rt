// Moving a handler to another core.
ghost use Rattle.std.specs.Prelude.{Ok, Err, MatchResult};
ghost use Rattle.plan.specs.Contents.{contents};
ghost use Rattle.plan.specs.Calls.{MaySeat, Reseats, Untouched};

use crate::plans::Plan;
use crate::refusals::Refusal;
use policy::cores::Core;

impl Plan {
    fn test_seat(&self, number: u8, core: u8) -> Result<(), Refusal>
        ensures { MatchResult result (λ _. MaySeat (contents self.now) number core) (λ e. Reseats (contents self.now) number core (Err e) (contents self.now)) }
    {
        self.handler(number).ok_or(Refusal::NoSuchHandler)?;
        Core::new(core).ok_or(Refusal::NoSuchCore)?;
        Ok(())
    }

    /// Moves the handler of this number to another core, or to the same one.
    pub fn reseat(&mut self, number: u8, core: u8) -> Result<(), Refusal>
        ensures reseats { Reseats (contents self.old) number core result (contents self.new) }
        ensures untouched { Untouched result self.old self.new }
    {
        self.test_seat(number, core)?;
        let mut handlers = self.handlers;
        handlers[number as usize - 1].core = core;
        *self = Plan {
            count: self.count,
            round: self.round,
            settling: self.settling,
            handlers,
            joins: self.joins,
        };
        Ok(())
    }
}
