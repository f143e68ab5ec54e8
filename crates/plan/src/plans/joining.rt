// Joins, and where they lead. Handlers go by their numbers here, as callers give them: 1 to 64.
ghost use Rattle.std.specs.Prelude.{◌≡◌, ℕ, ◌-◌, ◌<◌, ◌≤◌, true, Ok, Err, Decides, MatchResult};
ghost use Rattle.plan.specs.declared.handlers.Handler.{Handler};
ghost use Rattle.plan.specs.Joins.{joined_in};
ghost use Rattle.plan.specs.Routes.{Led, Follows, Reaches};
ghost use Rattle.plan.specs.Contents.{contents};
ghost use Rattle.plan.specs.Calls.{MayJoin, Joins, Untouched};

use crate::handlers::Handler;
use crate::plans::Plan;
use crate::refusals::Refusal;
use arrayvec::ArrayVec;
use gather::{Halt, Rule, gather};
use std::convert::Infallible;

// Whether the handler of one of the numbers `from` is joined before that of number `to`.
fn led(joins: &[[bool; 64]; 64], from: &[u8], to: u8) -> bool
    requires { (1 ≤ to) × (to ≤ 64) }
    ensures { Decides result (Led joins.now from.now to) }
{
    from.iter().any(|a| *a >= 1 && *a <= 64 && joins[*a as usize - 1][to as usize - 1])
}

// The numbers of the handlers that one of the numbers `from` is joined before.
fn follow(joins: &[[bool; 64]; 64], from: &[u8]) -> ArrayVec<u8, 64>
    ensures { Follows joins.now from.now result.items }
{
    let mut next = ArrayVec::new();
    // A loop, since `extend` and `collect` answer a `Result` that has nowhere to go here.
    for b in 1..=64 {
        if led(joins, from, b) {
            next.push(b);
        }
    }
    next
}

// The rule that goes along the joins: a level is the numbers that the joins of the level before lead to.
#[derive(Drop)]
struct Along<'a> {
    joins: &'a [[bool; 64]; 64],
    level: ArrayVec<u8, 64>,
}

impl Rule for Along<'_> {
    type Item = u8;

    type Fault = Infallible;

    ghost shows = { λ s. s.level.items };

    ghost steps = { λ s t. (t.joins.now ≡ s.joins.now) × Follows s.joins.now s.level.items t.level.items };

    ghost halts = { λ _ _ _. ⊥ };

    fn level(&self) -> &[u8] {
        &self.level
    }

    fn advance(&mut self) -> Result<(), Infallible> {
        self.level = follow(self.joins, &self.level);
        Ok(())
    }
}

// Whether `from` is `to`, or joins lead from the handler of the one number to that of the other.
fn leads(joins: &[[bool; 64]; 64], from: u8, to: u8) -> bool
    requires first { (1 ≤ from) × (from ≤ 64) }
    requires second { 1 ≤ to }
    requires inside { (a b : ℕ) → joined_in joins.now a b ≡ true → b < 64 }
    ensures { Decides result (Reaches joins.now from to) }
{
    let mut level = ArrayVec::new();
    level.push(from);
    let mut rule = Along { joins, level };
    let mut found = [0; 64];
    match gather(&mut rule, &mut found) {
        Ok(closed) => found[..closed.count].contains(&to),
        Err(Halt::Full { .. }) => unreachable(),
    }
}

impl Plan {
    fn test_join(&self, a: u8, b: u8) -> Result<(), Refusal>
        ensures { MatchResult result (λ _. MayJoin (contents self.now) a b) (λ e. Joins (contents self.now) a b (Err e) (contents self.now)) }
    {
        let first = self.handler(a).ok_or(Refusal::NoSuchHandler)?;
        let second = self.handler(b).ok_or(Refusal::NoSuchHandler)?;
        if (first.period, first.offset) != (second.period, second.offset) {
            return Err(Refusal::OtherTimes);
        }
        if leads(&self.joins, b, a) {
            return Err(Refusal::Circle);
        }
        Ok(())
    }

    /// Joins the handler of number `a` before that of number `b`: in each period `b` waits until `a` is done there.
    pub fn join(&mut self, a: u8, b: u8) -> Result<(), Refusal>
        ensures joins { Joins (contents self.old) a b result (contents self.new) }
        ensures untouched { Untouched result self.old self.new }
    {
        self.test_join(a, b)?;
        let mut joins = self.joins;
        joins[a as usize - 1][b as usize - 1] = true;
        *self = Plan {
            count: self.count,
            round: self.round,
            settling: self.settling,
            handlers: self.handlers,
            joins,
        };
        Ok(())
    }
}
