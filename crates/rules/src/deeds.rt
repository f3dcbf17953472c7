// Deeds, the operations on one train that is named, and what a deed gives.
use crate::ruling::Told;
use kinds::Ticket;
use trains::record::Train;

// Flags are lent beside the deed, since an enum holds no slice.
#[derive(Clone, Copy)]
pub enum Deed {
    Flags,
    Position(u32, u32),
    Authority(u32),
    Danger(u32),
    Clear(Ticket),
}

// What is told, and the train afterwards, where a deed is accepted.
#[derive(Clone, Copy)]
pub struct Changed {
    pub told: Told,
    pub train: Train,
}
