// Records: their form and kinds, the call that one asks for, and what running one tells. It knows no session.
#![tactic(auto)]

pub mod asked;
pub mod form;
pub mod kind;
pub mod told;
