// Plans with known verdicts, as the calls that make them. What a check has to find of each is proved here of the model's
// own definition of a verdict. A mixture of calls on one plan, too, and tests over several layers.
#![tactic(auto)]

#[cfg(test)]
mod files;
mod making;
pub mod mixture;
#[cfg(test)]
mod reseating;
mod table;
#[cfg(test)]
mod tests;
#[cfg(test)]
mod units;

use model::verdicts::Verdict;
use plan::handlers::Handler;
use policy::codes::Code;
pub use table::samples;

/// A call on a plan.
#[derive(Clone, Copy)]
pub enum Call {
    Register(Handler),
    /// Joins the handler of the first number before that of the second.
    Join(u8, u8),
}

/// A plan, as the calls that make it on a new one, and what a check finds of it.
#[derive(Clone, Copy)]
pub struct Sample {
    /// The calls in their order. A place may be empty.
    pub calls: [Option<Call>; 8],
    /// The code of each core.
    pub codes: [Code; 8],
    /// How many rows each working table has.
    pub working: u16,
    /// How many rows the mark table has.
    pub marks: u16,
    /// What is found.
    pub verdict: Verdict,
}
