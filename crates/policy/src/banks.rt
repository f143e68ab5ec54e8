// Banks: two disciplines side by side, and for each core the one that answers.

ghost use Rattle.std.specs.Prelude.{◌≡◌, ◌≢◌};
ghost use Rattle.policy.specs.declared.cores.Core.{Core};
ghost use Rattle.policy.specs.Banks.{side_at, banked};
ghost use Rattle.std.proofs.Common.{rules};

use crate::candidates::Candidate;
use crate::cores::Core;
use crate::disciplines::Discipline;

/// One of a bank's two disciplines.
#[derive(Clone, Copy)]
pub enum Side {
    Left,
    Right,
}

/// For each of the eight cores, the side that answers for it.
#[derive(Clone, Copy)]
pub struct Table {
    sides: [Side; 8],
}

impl Table {
    /// A table with one side for every core.
    pub fn new(side: Side) -> Table
        ensures { (k : Core) → side_at result.sides k ≡ side }
    {
        Table { sides: [side; 8] }
    }

    /// Gives one core to a side; the other cores keep theirs.
    pub fn set(&mut self, core: Core, side: Side)
        ensures changed { side_at self.new.sides core ≡ side }
        ensures others { (k : Core) → (k.number ≢ core.number) → side_at self.new.sides k ≡ side_at self.old.sides k }
    {
        self.sides[core.place()] = side;
    }

    /// The side that answers for a core.
    pub fn side(&self, core: Core) -> Side
        ensures { result ≡ side_at self.now.sides core }
    {
        self.sides[core.place()]
    }
}

/// Two disciplines by value, and the table that says for each core which of them answers.
#[derive(Drop)]
pub struct Bank<A, B> {
    pub left: A,
    pub right: B,
    pub table: Table,
}

impl<A: Discipline, B: Discipline> Discipline for Bank<A, B> {
    ghost first = { λ s. banked (side_at s.table.sides) (A.Discipline.first s.left) (B.Discipline.first s.right) };

    ghost lawful = { Prim.search rules };

    fn goes_first(&self, core: Core, a: Candidate, b: Candidate, t: u64) -> bool {
        match self.table.side(core) {
            Side::Left => self.left.goes_first(core, a, b, t),
            Side::Right => self.right.goes_first(core, a, b, t),
        }
    }
}
