// The four orders of a train: the place of each, an order put, an order cleared.
ghost use Rattle.std.specs.Prelude.{◌≡◌};
ghost use Rattle.trains.specs.Record.{order_count};
ghost use Rattle.trains.specs.Orders.{place_under, order_place, room, Below, set_at, has_order, has_place, with_order, order_cleared};

use crate::record::{Order, Train};
use kinds::Ticket;

pub const ORDERS: usize = 4;

// The first place whose order stands under a ticket; under ticket 0 that is the first free place.
fn place_under(held: [Order; 4], other: Ticket) -> Option<usize>
    ensures { result ≡ place_under held other }
{
    for i in 0..ORDERS {
        if held[i].other == other {
            return Some(i);
        }
    }
    None
}

#[tactic(auto, unfolding(crate::specs::Orders::order_place))]
fn order_place(held: [Order; 4], other: Ticket) -> Option<usize>
    ensures { result ≡ order_place held other }
{
    if other == Ticket(0) {
        return None;
    }
    place_under(held, other)
}

// Where an order goes: to the place of the same other ticket, else to the first free one.
#[tactic(auto, unfolding(crate::specs::Orders::room))]
fn room(held: [Order; 4], other: Ticket) -> Option<usize>
    ensures { result ≡ room held other }
{
    if other == Ticket(0) {
        return None;
    }
    place_under(held, other).or_else(|| place_under(held, Ticket(0)))
}

// The orders with one set at a place that was found. Where none was, they come back as they were.
#[tactic(auto, unfolding(crate::specs::Orders::set_at))]
fn set_at(mut held: [Order; 4], place: Option<usize>, order: Order) -> [Order; 4]
    requires { Below order_count place }
    ensures { result ≡ set_at held place order }
{
    if let Some(i) = place {
        held[i] = order;
    }
    held
}

impl Train {
    // Is there an order under this ticket? There is none under ticket 0.
    pub fn has_order(self, other: Ticket) -> bool
        ensures { result ≡ has_order self other }
    {
        order_place(self.orders, other).is_some()
    }

    // Is there a place for an order under this ticket?
    pub fn has_place(self, other: Ticket) -> bool
        ensures { result ≡ has_place self other }
    {
        room(self.orders, other).is_some()
    }

    // Where there is no place, the record comes back as it was.
    pub fn with_order(mut self, other: Ticket, limit: Option<u32>) -> Train
        ensures { result ≡ with_order self other limit }
    {
        let place = room(self.orders, other);
        self.orders = set_at(self.orders, place, Order { other, limit });
        self
    }

    // Where there is no order under the ticket, the record comes back as it was.
    pub fn order_cleared(mut self, other: Ticket) -> Train
        ensures { result ≡ order_cleared self other }
    {
        let place = order_place(self.orders, other);
        self.orders = set_at(self.orders, place, Order::none());
        self
    }
}
