// The words, and the answers that they make with two numbers.
ghost use Rattle.std.specs.Prelude.{◌≡◌, ◌≤◌, length};
ghost use Rattle.report.specs.Texts.{word_text, word_number};

/// What is said of a plan's file, in one word.
#[derive(Clone, Copy, Debug)]
pub enum Word {
    Kept = 1,
    Missed = 2,
    Working = 3,
    Marks = 4,
    Refused = 5,
}

impl Word {
    /// The word as it is printed.
    pub fn text(self) -> &'static str
        ensures text { result.now ≡ word_text self }
        ensures short { length result.now ≤ 7 }
    {
        match self {
            Word::Kept => "kept",
            Word::Missed => "missed",
            Word::Working => "working",
            Word::Marks => "marks",
            Word::Refused => "refused",
        }
    }

    /// The word's number, 1 to 5.
    pub fn number(self) -> u8
        ensures { result ≡ word_number self }
    {
        self as u8
    }
}

/// A word, and the two numbers that belong to it.
#[derive(Clone, Copy, Debug)]
pub struct Answer {
    pub word: Word,
    pub first: u64,
    pub second: u64,
}
