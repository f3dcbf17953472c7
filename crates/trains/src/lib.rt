// What is said of one train before there is a session.
#![tactic(auto)]

pub mod authority;
pub mod changes;
pub mod orders;
pub mod record;
pub mod sought;
