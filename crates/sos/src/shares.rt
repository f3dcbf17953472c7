// What the measures M2 to M6 of an SOS give to its two trains. A measure is a number, since these functions answer for any.
ghost use Rattle.std.specs.Prelude.{◌≡◌};
ghost use Rattle.sos.specs.Shares.{own_front, behind, share_behind, share_of_l1, share_of_l2};

use trains::record::{Position, Train};

const M2: u32 = 2;

const M3: u32 = 3;

const M4: u32 = 4;

const M5: u32 = 5;

const M6: u32 = 6;

// What one train of an SOS gets: an order with a limit, or a bare one. `NoPosition`: a position that the measure needs was never reported.
#[derive(Clone, Copy)]
pub enum Share {
    Nothing,
    NoPosition,
    Order(Option<u32>),
}

// A limit at the train's own front.
#[tactic(auto, unfolding(crate::specs::Shares::own_front))]
fn own_front(position: Option<Position>) -> Share
    ensures { result ≡ own_front position }
{
    match position {
        None => Share::NoPosition,
        Some(own) => Share::Order(Some(own.front)),
    }
}

// A limit the margin behind the rear of the train ahead, not below 0.
#[tactic(auto, unfolding(crate::specs::Shares::behind))]
fn behind(position: Option<Position>, margin: u32) -> Share
    ensures { result ≡ behind position margin }
{
    match position {
        None => Share::NoPosition,
        Some(ahead) => Share::Order(Some(ahead.rear.saturating_sub(margin))),
    }
}

// What L2 gets, by the position of the train ahead, L1, and its own.
#[tactic(auto, unfolding(crate::specs::Shares::share_behind))]
fn share_behind(measure: u32, ahead: Option<Position>, own: Option<Position>, margin: u32) -> Share
    ensures { result ≡ share_behind measure ahead own margin }
{
    match measure {
        M2 => behind(ahead, margin),
        M3 | M4 => own_front(own),
        M5 | M6 => Share::Order(None),
        _ => Share::Nothing,
    }
}

#[tactic(auto, unfolding(crate::specs::Shares::share_of_l1))]
pub fn share_of_l1(measure: u32, l1: Train) -> Share
    ensures { result ≡ share_of_l1 measure l1 }
{
    match measure {
        M4 => own_front(l1.track.position),
        M6 => Share::Order(None),
        _ => Share::Nothing,
    }
}

pub fn share_of_l2(measure: u32, l1: Train, l2: Train, margin: u32) -> Share
    ensures { result ≡ share_of_l2 measure l1 l2 margin }
{
    share_behind(measure, l1.track.position, l2.track.position, margin)
}
