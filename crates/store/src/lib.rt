// The lent bytes of a session: their layout, what any bytes stand for, and the empty session.
#![tactic(auto)]

pub mod emptied;
pub mod layout;
pub mod view;
