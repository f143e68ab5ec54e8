// What is said of the file of a plan: a word and two numbers, as a line of text or as a record of bytes.
#![tactic(auto)]

pub mod judging;
pub mod lines;
pub mod records;
pub mod words;
