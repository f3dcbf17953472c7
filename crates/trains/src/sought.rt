// The rows of the register, and what a search of them looks for.
use kinds::{Loco, Ticket};

// 24 trains at most.
pub const ROWS: usize = 24;

// A loco and a ticket together, a loco, or an empty row.
#[derive(Clone, Copy)]
pub enum Sought {
    Pair(Loco, Ticket),
    Number(Loco),
    Empty,
}
