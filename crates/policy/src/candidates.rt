// Candidates: handlers as a core sees them when it chooses. The type carries the ranges.
ghost use Rattle.std.specs.Prelude.{◌≡◌, ◌≤◌, ◌&&◌, is_some, IfSome, nat_le};
ghost use Rattle.policy.specs.Words.{FitsWord};

/// A handler as a core sees it when it chooses: its number, and when it is released.
#[derive(Clone, Copy)]
pub struct Candidate {
    number: u8,
    period: u16,
    offset: u16,
    ghost low: { 1 ≤ number },
    ghost high: { number ≤ 64 },
    ghost comes: { 1 ≤ period },
    ghost period_fits: { FitsWord period },
    ghost offset_fits: { FitsWord offset },
}

impl Candidate {
    /// A candidate of these numbers; `None` for number 0 or above 64, and for period 0.
    pub fn new(number: u8, period: u16, offset: u16) -> Option<Candidate>
        ensures test { is_some result ≡ (nat_le 1 number && (nat_le number 64 && nat_le 1 period)) }
        ensures value { IfSome result (λ x. (x.number ≡ number) × (x.period ≡ period) × (x.offset ≡ offset)) }
    {
        if 1 <= number && number <= 64 && 1 <= period {
            Some(Candidate {
                number,
                period,
                offset,
            })
        } else {
            None
        }
    }

    pub fn number(self) -> u8
        ensures { result ≡ self.number }
    {
        self.number
    }

    pub fn period(self) -> u16
        ensures { result ≡ self.period }
    {
        self.period
    }

    pub fn offset(self) -> u16
        ensures { result ≡ self.offset }
    {
        self.offset
    }
}
