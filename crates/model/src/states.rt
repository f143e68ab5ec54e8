// States, as they stand in memory.
ghost use Rattle.std.specs.Prelude.{◌≡◌, length};

use gather::Element;

mod reading;

/// The time left of each handler of a plan, by its place, the number less one. The places past the last handler
/// stand for no handler: no answer about a plan depends on them, and they are handed
/// on as they are.
// Places for 64 handlers, whatever the plan has: memory is fixed. The place of a known number is written
// `number as usize - 1`: a function for it would have to require that the number is known.
#[derive(Clone, Copy, PartialEq)]
pub struct State {
    pub left: [u16; 64],
    ghost whole: { length left ≡ 64 },
}

// Odd numbers, one for each place, so that states of few and small times get codes that differ in
// their high bits too.
const KEYS: [u16; 64] = [
    40823, 16741, 48615, 23497, 52115, 45251, 61765, 55151, 48491, 42733, 60447, 34737, 1901,
    55075, 30517, 50855, 61825, 16323, 42533, 3399, 59043, 10281, 7421, 24367, 30741, 56915, 16161,
    24955, 35637, 6683, 37615, 16341, 861, 47919, 14205, 26749, 18317, 11933, 60055, 56851, 50183,
    25523, 10461, 49935, 52243, 4715, 9095, 40497, 40467, 29153, 8305, 8667, 117, 63725, 57109,
    349, 13727, 50699, 14123, 62923, 64385, 10871, 57175, 10911,
];

impl Element for State {
    ghost use Rattle.model.specs.Same.{state_told};
    ghost use Rattle.model.specs.Codes.{code_of};

    ghost filed = { λ s. code_of s.left };

    ghost told = { state_told };

    fn code(&self) -> u16 {
        // By the place: the check finds no proof of a fold over a zip.
        let mut code = 0u16;
        for place in 0..64 {
            code = code.wrapping_add(self.left[place].wrapping_mul(KEYS[place]));
        }
        code
    }
}
