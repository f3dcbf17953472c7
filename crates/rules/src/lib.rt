// What the paper says of each operation, over a view and with no bytes of a session: all of it is in specs/. In code: trains by value, what a
// ruling is, grant and release. What a deed does is in the crate `acting`, the SOS in `raising`, both by the definitions of this crate.
#![tactic(auto)]

pub mod deeds;
pub mod effect;
pub mod named;
pub mod refusals;
pub mod registering;
pub mod ruling;
pub mod settings;
pub mod slots;
