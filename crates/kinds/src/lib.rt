// The three kinds of number that name something in a session. Each is a type of its own, so that a loco number or a slot can't reach a ticket
// comparison, and each knows its range.
#![tactic(auto)]

pub mod ranges;

ghost use Rattle.std.specs.Prelude.{◌≡◌};
ghost use Rattle.kinds.specs.Kinds.{no_loco, same_loco, loco_in_range, ticket_in_range, next_ticket, slot_in_range};

pub const LAST_LOCO: u32 = 131070;

pub const LAST_TICKET: u32 = 65535;

pub const LAST_SLOT: u32 = 44;

#[derive(Clone, Copy, PartialEq, Eq)]
pub struct Loco(pub u32);

// A later grant has the greater ticket.
#[derive(Clone, Copy, PartialEq, Eq, PartialOrd, Ord)]
pub struct Ticket(pub u32);

#[derive(Clone, Copy, PartialEq, Eq)]
pub struct Slot(pub u32);

impl Loco {
    // Is this the loco number of an empty row, which names no train?
    pub fn is_none(self) -> bool
        ensures { result ≡ same_loco self no_loco }
    {
        self.0 == 0
    }

    pub fn in_range(self) -> bool
        ensures { result ≡ loco_in_range self }
    {
        ranges::is_one_to(LAST_LOCO, self.0)
    }
}

impl Ticket {
    pub fn in_range(self) -> bool
        ensures { result ≡ ticket_in_range self }
    {
        ranges::is_one_to(LAST_TICKET, self.0)
    }

    // The ticket after this one, where there is one left.
    #[tactic(auto, unfolding(crate::specs::Kinds::next_ticket))]
    pub fn next(self) -> Option<Ticket>
        ensures { result ≡ next_ticket self }
    {
        if self.0 < LAST_TICKET {
            return Some(Ticket(self.0 + 1));
        }
        None
    }
}

impl Slot {
    pub fn in_range(self) -> bool
        ensures { result ≡ slot_in_range self }
    {
        ranges::is_one_to(LAST_SLOT, self.0)
    }
}
