// The text form of a plan: the words of a line, a plan and its codes read from lines, and text and file turned into each
// other.
#![tactic(auto)]

pub mod listing;
pub mod notation;
pub mod texts;
