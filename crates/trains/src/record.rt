// The train record.
ghost use Rattle.std.specs.Prelude.{◌≡◌};
ghost use Rattle.trains.specs.Record.{no_order, no_track, plain_train, blank_train, fresh_train};

use kinds::{Loco, Slot, Ticket};

// Where a train reported that it stands, in metres.
#[derive(Clone, Copy)]
pub struct Position {
    pub front: u32,
    pub rear: u32,
}

// An order under the other train's ticket: a limit in metres, or a bare one. Ticket 0, which no grant gives, is no order: its place is free. It is no
// Option of an order, since foreign bytes may hold a limit in a free place too, and `kb_train` tells it.
#[derive(Clone, Copy)]
pub struct Order {
    pub other: Ticket,
    pub limit: Option<u32>,
}

// Where a train is, how far it may go, and the danger location ahead of it; each may be missing.
#[derive(Clone, Copy)]
pub struct Track {
    pub position: Option<Position>,
    pub granted: Option<u32>,
    pub danger: Option<u32>,
}

// `left` is the mode left for Override, and 0 in any other mode. An empty register row has loco 0.
#[derive(Clone, Copy)]
pub struct Train {
    pub loco: Loco,
    pub ticket: Ticket,
    pub start: Slot,
    pub slots: u32,
    pub mode: u32,
    pub left: u32,
    pub track: Track,
    pub orders: [Order; 4],
}

impl Order {
    pub fn none() -> Order
        ensures { result ≡ no_order }
    {
        Order {
            other: Ticket(0),
            limit: None,
        }
    }
}

impl Track {
    // No position, authority or danger location.
    pub fn none() -> Track
        ensures { result ≡ no_track }
    {
        Track {
            position: None,
            granted: None,
            danger: None,
        }
    }
}

impl Train {
    // A train in a mode, with nothing reported, granted or ordered.
    fn plain(loco: Loco, ticket: Ticket, start: Slot, slots: u32, mode: u32) -> Train
        ensures { result ≡ plain_train loco ticket start slots mode }
    {
        Train {
            loco,
            ticket,
            start,
            slots,
            mode,
            left: 0,
            track: Track::none(),
            orders: [Order::none(); 4],
        }
    }

    // The record of an empty register row.
    pub fn blank() -> Train
        ensures { result ≡ blank_train }
    {
        Train::plain(Loco(0), Ticket(0), Slot(0), 0, 0)
    }

    // A train just granted is in SB.
    pub fn fresh(loco: Loco, ticket: Ticket, start: Slot, slots: u32) -> Train
        ensures { result ≡ fresh_train loco ticket start slots }
    {
        Train::plain(loco, ticket, start, slots, transitions::names::SB)
    }
}
