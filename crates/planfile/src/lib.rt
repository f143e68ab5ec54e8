// The file of a plan and the codes of its cores: read and written, byte by byte.
#![tactic(auto)]

mod entering;
pub mod faults;
pub mod reading;
pub mod records;
pub mod writing;
