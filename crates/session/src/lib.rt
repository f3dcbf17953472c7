// A session in lent bytes: the operations and `start`, and the questions that only read.
#![tactic(auto)]

pub mod operations;
pub mod questions;
