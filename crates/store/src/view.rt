// What a session's bytes stand for: the numbers of the header, the trains in the rows, and the slots that are taken. Nothing is changed here,
// and any bytes are read.
ghost use Rattle.std.specs.Prelude.{◌≡◌};
ghost use Rattle.rules.specs.View.{row_in, is_taken, find_in};
ghost use Rattle.trains.specs.declared.sought.Sought.TheVariants.{Pair, Number, Empty};
ghost use Rattle.store.specs.Stands.{view_of, book_of, counter_of, kept_of, head_of};

use crate::layout;
use kinds::{Loco, Slot, Ticket};
use rows::row;
use trains::record::Train;
use trains::sought::ROWS;

// The ticket counter.
pub fn counter(s: &[u8]) -> Ticket
    ensures { result ≡ counter_of s.now }
{
    Ticket(numbers::word_at(s, layout::COUNTER))
}

// The entries kept: never more than the ring has notches.
#[tactic(auto, unfolding(replay::specs::Demand3::depth))]
pub fn kept(s: &[u8]) -> usize
    ensures { result ≡ kept_of s.now }
{
    (numbers::word_at(s, layout::KEPT) as usize).min(ring::DEPTH)
}

// The notch of the ring that the next entry goes to.
#[tactic(auto, unfolding(replay::specs::Demand3::depth))]
pub fn head(s: &[u8]) -> usize
    ensures { result ≡ head_of s.now }
{
    numbers::word_at(s, layout::HEAD) as usize % ring::DEPTH
}

// The train in row i, counted from 0; a row past the register reads as blank.
pub fn train(s: &[u8], i: usize) -> Train
    ensures { result ≡ row_in (view_of s.now) i }
{
    if i < ROWS {
        row::row_at(s, layout::row_offset(i as u32))
    } else {
        Train::blank()
    }
}

// The first row that holds a loco and a ticket together.
#[tactic(auto, using(crate::proofs::ViewLaws::find_in_lem))]
pub fn find(s: &[u8], loco: Loco, ticket: Ticket) -> Option<usize>
    ensures { result ≡ find_in (view_of s.now) (Pair loco ticket) }
{
    register::find(s, layout::REGISTER, loco, ticket)
}

// The first row with a loco number.
#[tactic(auto, using(crate::proofs::ViewLaws::find_in_lem))]
pub fn find_loco(s: &[u8], loco: Loco) -> Option<usize>
    ensures { result ≡ find_in (view_of s.now) (Number loco) }
{
    register::find_loco(s, layout::REGISTER, loco)
}

// The first empty row.
#[tactic(auto, using(crate::proofs::ViewLaws::find_in_lem))]
pub fn find_empty(s: &[u8]) -> Option<usize>
    ensures { result ≡ find_in (view_of s.now) Empty }
{
    register::find_empty(s, layout::REGISTER)
}

// Is a slot taken? One that is none of the book's is not.
pub fn is_taken(s: &[u8], slot: Slot) -> bool
    ensures { result ≡ is_taken (book_of s.now) slot }
{
    slot.in_range() && numbers::byte_at(s, layout::BOOK + (slot.0 as usize - 1)) != 0
}
