// Looking on while a check goes from time to time.
ghost use Rattle.std.specs.Prelude.{◌≡◌, ℕ, List};
ghost use Rattle.plan.specs.Contents.{Contents, contents};
ghost use Rattle.model.specs.declared.states.State.{State};

use crate::moments::Moment;
use model::states::State;

/// Looks on while a check goes from time to time: it sees the states of each time, in the order of
/// the times.
pub trait Observer {
    // Holds of an observer before and after it saw states of a plan up to a time: those of so many
    // times, which all have these.
    ghost seen: { Self → Contents → ℕ → ℕ → List State → Self → Type 0 };

    /// These are the states at this time, and at as many times before it as make so many in all.
    fn see(&mut self, moment: &Moment, times: u64, states: &[State])
        ensures { seen self.old (contents moment.now.plan.now) moment.now.time times
            states.now self.new };
}

/// Looks at nothing, and costs nothing.
#[derive(Drop)]
pub struct Nobody;

impl Observer for Nobody {
    ghost seen = { λ s _ _ _ _ t. t ≡ s };

    fn see(&mut self, _moment: &Moment, _times: u64, _states: &[State]) {}
}
