// The questions that only read a lent session, under their names in C. Each refuses bytes of another length.
// Each is a function of its own, however alike, since C calls it by its name.
ghost use Rattle.std.specs.Prelude.{◌≡◌};
ghost use Rattle.numbers.specs.Numbers.{one_if};
ghost use Rattle.rules.specs.Slots.{slot_of};
ghost use Rattle.rules.specs.View.{is_taken};
ghost use Rattle.store.specs.Stands.{book_of, counter_of, kept_of};
ghost use Rattle.session.specs.Answers.{end_answer_to};
ghost use Rattle.host.specs.Kinds.{loco, ticket};
ghost use Rattle.host.specs.Told.{number_answer, train_answer};

use crate::told::TrainAnswer;
use kinds::{Loco, Slot, Ticket};
use rules::refusals::Refusal;
use rules::ruling::Answer;
use session::questions;
use store::layout;

// A number that was asked of a session.
#[tactic(auto, unfolding(rules::specs::Refusals::number_of, crate::specs::Told::number_answer, stepback::specs::Back::of_session))]
fn tell(session: &[u8], number: u32) -> Answer
    ensures { result ≡ number_answer session.now number }
{
    if !layout::is_session(session) {
        return Answer::refused(Refusal::WrongLength.number());
    }
    Answer::accepted(number, 0, 0)
}

// The ticket counter.
#[unsafe(no_mangle)]
pub extern "C" fn kb_counter(session: &[u8]) -> Answer
    ensures { result ≡ number_answer session.now (counter_of session.now).0 }
{
    tell(session, questions::counter(session).0)
}

// The entries kept.
#[unsafe(no_mangle)]
pub extern "C" fn kb_kept(session: &[u8]) -> Answer
    ensures { result ≡ number_answer session.now (kept_of session.now) }
{
    tell(session, questions::kept(session))
}

// 1 for a slot that is taken; one outside 1 to 44 is not.
#[unsafe(no_mangle)]
pub extern "C" fn kb_is_taken(session: &[u8], slot: u32) -> Answer
    ensures { result ≡ number_answer session.now (one_if (is_taken (book_of session.now) (slot_of slot))) }
{
    tell(session, u32::from(questions::is_taken(session, Slot(slot))))
}

// The effective end of a named train.
#[unsafe(no_mangle)]
pub extern "C" fn kb_end(session: &[u8], number: u32, under: u32) -> Answer
    ensures { result ≡ end_answer_to session.now (loco number) (ticket under) }
{
    questions::end(session, Loco(number), Ticket(under))
}

// The train in a row of the register, counted from 0. A row above 23 reads as blank.
#[tactic(auto, unfolding(rules::specs::Refusals::number_of, crate::specs::Told::train_answer))]
#[unsafe(no_mangle)]
pub extern "C" fn kb_train(session: &[u8], row: u32) -> TrainAnswer
    ensures { result ≡ train_answer session.now row }
{
    if !layout::is_session(session) {
        return TrainAnswer::refused(Refusal::WrongLength.number());
    }
    TrainAnswer::from(questions::train(session, row))
}
