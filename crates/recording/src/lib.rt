// Recordings: one record judged and run on a lent session.
#![tactic(auto)]

pub mod running;
