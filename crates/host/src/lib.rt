// The C boundary: what include/kavach_bench.h declares. Numbers and lent bytes go to the layers below, and their answers come back. Here
// alone the numbers of C become locos, tickets and slots.
#![tactic(auto)]

pub mod operations;
pub mod questions;
pub mod radio;
pub mod recorded;
pub mod told;
