// Plans: handlers and joins, the calls that change them, and why a call is refused.
#![tactic(auto)]

pub mod handlers;
pub mod multiples;
pub mod plans;
#[cfg(test)]
mod refusal_tests;
pub mod refusals;
#[cfg(test)]
mod tests;
