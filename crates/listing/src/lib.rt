// A recording's listing: its records run one after another, a line for each, and a recording lent whole listed into a lent output.
#![tactic(auto)]

pub mod runs;
pub mod whole;
