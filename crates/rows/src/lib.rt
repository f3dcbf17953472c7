// The train record as a row of bytes.
#![tactic(auto)]

pub mod row;
