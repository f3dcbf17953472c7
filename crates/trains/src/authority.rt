// The end of authority.
ghost use Rattle.std.specs.Prelude.{◌≡◌};
ghost use Rattle.trains.specs.Record.{order_count};
ghost use Rattle.trains.specs.Authority.{nearer, nearest, order_stop, order_stops, danger_stop, end_from, end_of};

use crate::record::{Order, Train};
use kinds::Ticket;

#[tactic(auto, unfolding(crate::specs::Authority::nearer))]
fn nearer_of(end: u32, stop: Option<u32>) -> u32
    ensures { result ≡ nearer end stop }
{
    match stop {
        None => end,
        Some(x) => end.min(x),
    }
}

impl Order {
    // Where an order stops its train. A bare one does not, and a free place is no order.
    #[tactic(auto, unfolding(crate::specs::Authority::order_stop))]
    fn stop(self) -> Option<u32>
        ensures { result ≡ order_stop self }
    {
        if self.other == Ticket(0) {
            return None;
        }
        self.limit
    }
}

// The nearest of an end and of what four orders stop at.
fn nearest_order(held: [Order; 4], from: u32) -> u32
    ensures { result ≡ nearest from (order_stops held 0 order_count) }
{
    let mut end = from;
    for order in held {
        end = nearer_of(end, order.stop());
    }
    end
}

impl Train {
    // In Override the danger location does not count: the mode is looked at first.
    #[tactic(auto, unfolding(crate::specs::Authority::danger_stop))]
    fn danger_stop(self) -> Option<u32>
        ensures { result ≡ danger_stop self }
    {
        if self.mode == transitions::names::OV {
            return None;
        }
        self.track.danger
    }

    // The nearest of a granted end and of all that stops the train.
    #[tactic(auto, unfolding(crate::specs::Authority::nearest))]
    fn end_from(self, granted: u32) -> u32
        ensures { result ≡ end_from self granted }
    {
        nearest_order(self.orders, nearer_of(granted, self.danger_stop()))
    }

    // The effective end: none while no authority is granted.
    #[tactic(auto, unfolding(crate::specs::Authority::end_with))]
    pub fn end(self) -> Option<u32>
        ensures { result ≡ end_of self }
    {
        let granted = self.track.granted?;
        Some(self.end_from(granted))
    }
}
