// The SOS grids: the row class of a train by its mode, and the cell of each grid for a class.
#![tactic(auto)]

pub mod cells;
pub mod classes;
