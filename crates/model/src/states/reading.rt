// The first state, and reading one.
ghost use Rattle.std.specs.Prelude.{◌≡◌, ◌-◌, ◌&&◌, leb, if◌then◌else◌, nat_le, replicate, slice_index};
ghost use Rattle.plan.specs.Contents.{Contents, Sound};
ghost use Rattle.model.specs.Units.{zeros};
ghost use Rattle.model.specs.Memory.{times};

use crate::states::State;

impl State {
    /// The state at time 0, with which every run begins: nobody has time left.
    pub fn new() -> State
        ensures begins { (p : Contents) → Sound p → times p result ≡ zeros p }
        ensures blank { result.left ≡ replicate 64 0 }
    {
        State { left: [0; 64] }
    }

    /// The time left of the handler of this number; 0 for number 0 and above 64.
    pub fn time_left(&self, number: u8) -> u16
        ensures { result ≡ (if leb 1 number && nat_le number 64 then slice_index self.now.left (number - 1) else 0) }
    {
        match number {
            1..=64 => self.left[number as usize - 1],
            _ => 0,
        }
    }
}
