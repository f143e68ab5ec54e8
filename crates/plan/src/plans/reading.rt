// What a plan tells of itself.
ghost use Rattle.std.specs.Prelude.{◌≡◌, ◌-◌, ◌≤◌, is_some, IfSome};
ghost use Rattle.plan.specs.Rows.{IsInRange, LeastRound, GreatestOffset, longest_round};
ghost use Rattle.plan.specs.Contents.{contents, count, at, known, round, settling, joins, StandsFor, Placed};

use crate::handlers::Handler;
use crate::plans::Plan;
use policy::candidates::Candidate;

impl Plan {
    // The row of the handler of this number.
    fn place(&self, number: u8) -> Option<usize>
        ensures test { is_some result ≡ known (contents self.now) number }
        ensures placed { IfSome result (λ i. Placed self.now number i) }
    {
        number
            .checked_sub(1)
            .filter(|place| *place < self.count)
            .map(usize::from)
    }

    /// How many handlers there are.
    pub fn count(&self) -> u8
        ensures { result ≡ count (contents self.now) }
    {
        self.count
    }

    /// The handler of this number; `None` where there is none.
    pub fn handler(&self, number: u8) -> Option<Handler>
        ensures test { is_some result ≡ known (contents self.now) number }
        ensures value { IfSome result (λ h. h ≡ at (contents self.now) (number - 1)) }
        ensures ranges { IfSome result IsInRange }
    {
        let i = self.place(number)?;
        Some(self.handlers[i])
    }

    /// The handler of this number, as a core sees it when it chooses; `None` where there is none.
    pub fn candidate(&self, number: u8) -> Option<Candidate>
        ensures test { is_some result ≡ known (contents self.now) number }
        ensures value { IfSome result (λ x. StandsFor x (contents self.now) number) }
    {
        let handler = self.handler(number)?;
        Candidate::new(number, handler.period, handler.offset)
    }

    /// Whether the handler of number `a` is joined before that of number `b`; not where there is none.
    pub fn joined(&self, a: u8, b: u8) -> bool
        ensures { result ≡ joins (contents self.now) a b }
    {
        self.place(a)
            .zip(self.place(b))
            .is_some_and(|(i, j)| self.joins[i][j])
    }

    /// The round (the hyperperiod): the least number that every period divides.
    pub fn round(&self) -> u32
        ensures value { result ≡ round (contents self.now) }
        ensures least { LeastRound (contents self.now).handlers result }
        ensures short { result ≤ longest_round }
    {
        self.round
    }

    /// The settling time: the greatest offset, and 0 where there is no handler.
    pub fn settling(&self) -> u16
        ensures value { result ≡ settling (contents self.now) }
        ensures greatest { GreatestOffset (contents self.now).handlers result }
    {
        self.settling
    }
}
