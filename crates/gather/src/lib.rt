// Gathers what can be reached, level by level, until a level brings nothing new.
#![tactic(auto)]

ghost use Rattle.std.specs.Prelude.{◌≡◌, ℕ, ◌*◌, ◌≤◌, List, [], ◌∷◌, length, take, Decides, MatchResult, OnErr};
ghost use Rattle.std.specs.List.{Contains as Has};
ghost use Rattle.gather.specs.Levels.{Tells, Closes, Gathered, Halts, Filled, Halted};
ghost use Rattle.gather.specs.Growth.{Absorbs};
ghost use Rattle.std.proofs.lemmas.Bool.Decides.{Decides-eqb};

use crate::lent::Lent;
use crate::tables::{Inserted, Table};

pub mod indexed;
pub mod lent;
pub mod tables;

/// Elements that `==` tells apart: two that it says are equal are one. `Eq` alone would say only
/// that `==` is an equivalence.
pub trait Element: Copy + PartialEq {
    // The code of an element. It is a function of the element, so equal elements have one code.
    ghost filed: { Self → ℕ };

    /// The code by which an index files the element: the high bits choose the place.
    fn code(&self) -> u16
        ensures { result ≡ filed self.now };

    ghost told: { Tells Self.PartialEq.eq };
}

impl Element for u8 {
    ghost filed = { λ x. x * 256 };

    ghost told = { Decides-eqb };

    fn code(&self) -> u16 {
        *self as u16 * 256
    }
}

/// What comes next: a rule holds one level of elements, and can go on to the next.
pub trait Rule {
    type Item: Element;

    type Fault;

    // The elements of the level.
    ghost shows: { Self → List Self.Item };

    // Holds of a rule before and after it went on.
    ghost steps: { Self → Self → Type 0 };

    // Holds of a rule that could not go on, of why, and of what it is then.
    ghost halts: { Self → Self.Fault → Self → Type 0 };

    fn level(&self) -> &[Self::Item]
        ensures { result.now ≡ shows self.now };

    fn advance(&mut self) -> Result<(), Self::Fault>
        ensures { MatchResult result (λ _. steps self.old self.new) (λ e. halts self.old e self.new) };
}

/// Where a gathering closed: so many levels each brought something new, and so many elements were found in them.
#[derive(Clone, Copy)]
pub struct Closed {
    pub levels: usize,
    pub count: usize,
}

/// Why a gathering did not close: there was no room for an element of this level (counted from 0), or the rule could
/// not go on from it, with so many elements found by then.
#[derive(Drop)]
pub enum Halt<F> {
    Full {
        level: usize,
    },
    Fault {
        level: usize,
        count: usize,
        fault: F,
    },
}

// There is no room for an element.
#[derive(Clone, Copy)]
struct NoRoom;

// Puts the elements of a level into the table, until there is no room for one.
fn absorb<T: Table>(table: &mut T, level: &[T::Item]) -> Result<(), NoRoom>
    ensures adds { Absorbs level.now (T.members table.old) result (T.members table.new) }
    ensures full { OnErr result (length (T.members table.new) ≡ T.room table.new) }
    ensures same_room { T.room table.new ≡ T.room table.old }
    ensures frame { T.extended table.old table.new }
{
    for element in level {
        match table.insert(element) {
            Inserted::New | Inserted::There => {}
            Inserted::Full => return Err(NoRoom),
        }
    }
    Ok(())
}

/// Gathers the elements of level after level into the table, emptied first, until a level brings nothing new.
pub fn gather_into<R: Rule, T: Table<Item = R::Item>>(
    rule: &mut R,
    table: &mut T,
) -> Result<Closed, Halt<R::Fault>>
    ensures gathers { MatchResult result (λ o. Gathered o (T.members table.new) (Closes R.shows R.steps rule.old o.levels rule.new)) (Halts R.shows R.steps R.halts rule.old rule.new (T.room table.new) (T.members table.new)) }
    ensures same_room { T.room table.new ≡ T.room table.old }
    ensures frame { (s : T) × T.emptied table.old s × T.extended s table.new }
{
    table.clear();
    // Counted by hand: the number is a part of every answer, and a range to go over would need an end.
    let mut levels = 0;
    loop {
        let count = table.rows().len();
        absorb(table, rule.level()).map_err(|_| Halt::Full { level: levels })?;
        let after = table.rows().len();
        if after == count {
            return Ok(Closed { levels, count });
        }
        rule.advance().map_err(|fault| Halt::Fault {
            level: levels,
            count: after,
            fault,
        })?;
        levels += 1;
    }
}

/// Gathers the elements of level after level into the first rows of `found`, until a level brings nothing new.
pub fn gather<R: Rule>(rule: &mut R, found: &mut [R::Item]) -> Result<Closed, Halt<R::Fault>>
    ensures { MatchResult result (λ o. Filled o.count found.new found.old (Closes R.shows R.steps rule.old o.levels rule.new)) (Halted R.shows R.steps R.halts rule.old rule.new found.new found.old) }
{
    gather_into(rule, &mut Lent::new(found))
}

#[cfg(test)]
mod tests;
