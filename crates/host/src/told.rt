// A train record as the numbers that C reads: where there is no position, authority, danger location or limit, the number is that of none.
ghost use Rattle.std.specs.Prelude.{◌≡◌};
ghost use Rattle.host.specs.Told.{order_told, train_told, train_refused};

use kinds::ranges::NONE;
use trains::record::{Order, Train};

// An order: the other train's ticket, 0 for no order; and the limit in metres, or none for a bare one.
#[repr(C)]
#[derive(Clone, Copy, Default)]
pub struct OrderTold {
    pub ticket: u32,
    pub limit: u32,
}

// A row of the register: 0 with the record's numbers, or a refusal's number with zeros. An empty row has loco 0.
#[repr(C)]
#[derive(Clone, Copy, Default)]
pub struct TrainAnswer {
    pub answer: u32,
    pub loco: u32,
    pub ticket: u32,
    pub start: u32,
    pub slots: u32,
    pub mode: u32,
    pub left: u32,
    pub front: u32,
    pub rear: u32,
    pub authority: u32,
    pub danger: u32,
    pub orders: [OrderTold; 4],
}

impl From<Order> for OrderTold {
    ghost from_gives = { λ order told. told ≡ order_told order };

    fn from(order: Order) -> OrderTold {
        OrderTold {
            ticket: order.other.0,
            limit: order.limit.unwrap_or(NONE),
        }
    }
}

// The record of a row in numbers.
impl From<Train> for TrainAnswer {
    ghost from_gives = { λ train told. told ≡ train_told train };

    #[tactic(auto, unfolding(crate::specs::Told::front_number, crate::specs::Told::rear_number, crate::specs::Told::orders_told, crate::specs::Told::train_told))]
    fn from(train: Train) -> TrainAnswer {
        let position = train.track.position;
        TrainAnswer {
            answer: 0,
            loco: train.loco.0,
            ticket: train.ticket.0,
            start: train.start.0,
            slots: train.slots,
            mode: train.mode,
            left: train.left,
            front: position.map_or(NONE, |ends| ends.front),
            rear: position.map_or(NONE, |ends| ends.rear),
            authority: train.track.granted.unwrap_or(NONE),
            danger: train.track.danger.unwrap_or(NONE),
            orders: train.orders.map(OrderTold::from),
        }
    }
}

impl TrainAnswer {
    #[tactic(auto, unfolding(crate::specs::Told::train_refused))]
    pub fn refused(reason: u32) -> TrainAnswer
        ensures { result ≡ train_refused reason }
    {
        TrainAnswer {
            answer: reason,
            ..TrainAnswer::default()
        }
    }
}
