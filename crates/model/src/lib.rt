// What a plan does: one unit of time, runs, lateness, the verdict, and what checks are worth in any mixture of calls.
// Nearly all of it is definitions and theorems.
#![tactic(auto)]

pub mod states;
pub mod verdicts;
