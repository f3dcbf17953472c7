// The SOS between two trains: what a measure gives to either.
#![tactic(auto)]

pub mod shares;
