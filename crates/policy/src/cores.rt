// Cores. The type carries the range, so a question about another core cannot be put.
ghost use Rattle.std.specs.Prelude.{◌≡◌, ℕ, ◌+◌, ◌-◌, ◌<◌, ◌≤◌, ◌&&◌, is_some, IfSome, Some, nat_le, slice_get};

use std::array;

/// One of the eight cores, numbered from 1.
#[derive(Clone, Copy)]
pub struct Core {
    number: u8,
    ghost low: { 1 ≤ number },
    ghost high: { number ≤ 8 },
}

impl Core {
    // An `Option`, as at the library's `NonZero`: an error would say no more than that there is no such core.
    /// The core of this number; `None` for 0 and above 8.
    pub fn new(number: u8) -> Option<Core>
        ensures test { is_some result ≡ (nat_le 1 number && nat_le number 8) }
        ensures value { IfSome result (λ k. k.number ≡ number) }
    {
        if 1 <= number && number <= 8 {
            Some(Core { number })
        } else {
            None
        }
    }

    /// All eight, in the order of their numbers.
    pub fn all() -> [Core; 8]
        ensures { (i : ℕ) (k : _) → slice_get result i ≡ Some k → k.number ≡ i + 1 }
    {
        array::from_fn(
            |i|
                requires { i < 8 }
                ensures { result.number ≡ i + 1 }
            {
                Core {
                    number: i as u8 + 1,
                }
            },
        )
    }

    /// The core's place in a table of eight: its number less one.
    pub fn place(self) -> usize
        ensures value { result ≡ self.number - 1 }
        ensures inside { result < 8 }
    {
        usize::from(self.number) - 1
    }

    pub fn number(self) -> u8
        ensures { result ≡ self.number }
    {
        self.number
    }
}
