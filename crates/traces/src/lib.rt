// A vendor's mode trace (document 02, T-12): entries one after another, each a step that an onboard unit made.
#![tactic(auto)]

pub mod entry;
pub mod walk;
