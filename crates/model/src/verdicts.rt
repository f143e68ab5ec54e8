// Verdicts.

/// The rows that a check may find too few: those of a working table, or those of the mark table.
#[derive(Clone, Copy, PartialEq, Debug)]
pub enum Rows {
    Working,
    Marks,
}

/// What a check finds. A mark time is a whole number of rounds after the settling time, and a mark is a state at one.
#[derive(Clone, Copy, PartialEq, Debug)]
pub enum Verdict {
    /// No run is ever late: after so many rounds nothing new came, and there are so many marks.
    Kept { rounds: u64, marks: u64 },
    /// The earliest time at which a run is late, and the lowest number late then.
    Missed { time: u64, number: u8 },
    /// There were more states than rows by this time.
    RowsShort { rows: Rows, time: u64 },
}
