// Who goes first on a core: criteria that rank two handlers, disciplines that choose between them, and what is made of
// these.
#![tactic(auto)]

pub mod banks;
pub mod candidates;
pub mod codes;
pub mod cores;
pub mod criteria;
pub mod disciplines;
pub mod ranking;
