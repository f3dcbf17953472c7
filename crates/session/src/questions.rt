// Questions that only read a session: for displays and tests.
ghost use Rattle.std.specs.Prelude.{◌≡◌};
ghost use Rattle.rules.specs.View.{row_in, is_taken};
ghost use Rattle.store.specs.Stands.{view_of, book_of, counter_of, kept_of};
ghost use Rattle.session.specs.Answers.{end_answer_to};

use kinds::{Loco, Slot, Ticket};
use rules::refusals::Refusal;
use rules::ruling::Answer;
use store::{layout, view};
use trains::record::Train;

// The train in a row of the register, counted from 0. A row above 23 reads as blank.
pub fn train(session: &[u8], row: u32) -> Train
    ensures { result ≡ row_in (view_of session.now) row }
{
    view::train(session, row as usize)
}

// The effective end of a named train.
pub fn end(session: &[u8], loco: Loco, ticket: Ticket) -> Answer
    ensures { result ≡ end_answer_to session.now loco ticket }
{
    if !layout::is_session(session) {
        return Answer::refused(Refusal::WrongLength.number());
    }
    Answer::of(judging::end(session, loco, ticket))
}

// The ticket counter.
pub fn counter(session: &[u8]) -> Ticket
    ensures { result ≡ counter_of session.now }
{
    view::counter(session)
}

// The entries kept.
pub fn kept(session: &[u8]) -> u32
    ensures { result ≡ kept_of session.now }
{
    view::kept(session) as u32
}

// Is the slot taken? One outside 1 to 44 is not.
pub fn is_taken(session: &[u8], slot: Slot) -> bool
    ensures { result ≡ is_taken (book_of session.now) slot }
{
    view::is_taken(session, slot)
}
