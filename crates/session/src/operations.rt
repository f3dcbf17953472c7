// THE OPERATIONS on a lent session. Each judges first and then takes the effect in; a refusal changes no byte.
ghost use Rattle.std.specs.Prelude.{◌≡◌};
ghost use Rattle.rules.specs.Deeds.{meant};
ghost use Rattle.rules.specs.Meant.{ruling_meant};
ghost use Rattle.rules.specs.Rules.{Op};
ghost use Rattle.store.specs.Stands.{counter_of};
ghost use Rattle.stepback.specs.Back.{of_session};
ghost use Rattle.session.specs.Answers.{taken, answer_to, bytes_after, start_answer, start_after};

use kinds::{Loco, Ticket};
use ledger::settled;
use rules::deeds::Deed;
use rules::refusals::Refusal;
use rules::ruling::{Answer, Ruling};
use store::{emptied, layout};

// The one way in which an operation ends: bytes that are no session are refused, and a ruling that accepts is taken in.
fn commit(ruling: Result<Ruling, Refusal>, session: &mut [u8]) -> Answer
    ensures value { result ≡ of_session session.old (ruling_meant (counter_of session.old) ruling).answer }
    ensures session_after { session.new ≡ taken session.old (ruling_meant (counter_of session.old) ruling) }
{
    if !layout::is_session(session) {
        return Answer::refused(Refusal::WrongLength.number());
    }
    match ruling {
        Ok(ruling) => {
            settled::settle(session, ruling.counter, ruling.effect);
            Answer::of(Ok(ruling.told))
        }
        Err(reason) => Answer::refused(reason.number()),
    }
}

// Makes the empty session.
pub fn start(session: &mut [u8]) -> Answer
    ensures value { result ≡ start_answer session.old }
    ensures session_after { session.new ≡ start_after session.old }
{
    if !layout::is_session(session) {
        return Answer::refused(Refusal::WrongLength.number());
    }
    emptied::clear(session);
    Answer::accepted(0, 0, 0)
}

pub fn request(session: &mut [u8], loco: Loco, bytes: u32) -> Answer
    ensures value { result ≡ answer_to session.old (Op.request loco bytes) }
    ensures session_after { session.new ≡ bytes_after session.old (Op.request loco bytes) }
{
    commit(
        judging::request(session, settings::usual(), loco, bytes),
        session,
    )
}

pub fn release(session: &mut [u8], loco: Loco, ticket: Ticket) -> Answer
    ensures value { result ≡ answer_to session.old (Op.release loco ticket) }
    ensures session_after { session.new ≡ bytes_after session.old (Op.release loco ticket) }
{
    commit(judging::release(session, loco, ticket), session)
}

// A deed on one train; the flags are looked at where the deed is flags.
pub fn on(session: &mut [u8], loco: Loco, ticket: Ticket, deed: Deed, flags: &[u8]) -> Answer
    ensures value { result ≡ answer_to session.old (Op.on loco ticket (meant deed flags.now)) }
    ensures session_after { session.new ≡ bytes_after session.old (Op.on loco ticket (meant deed flags.now)) }
{
    commit(judging::on(session, loco, ticket, deed, flags), session)
}

// SOS between L2, named first, and L1.
pub fn sos(
    session: &mut [u8],
    loco2: Loco,
    ticket2: Ticket,
    loco1: Loco,
    ticket1: Ticket,
    grid: u32,
) -> Answer
    ensures value { result ≡ answer_to session.old (Op.sos loco2 ticket2 loco1 ticket1 grid) }
    ensures session_after { session.new ≡ bytes_after session.old (Op.sos loco2 ticket2 loco1 ticket1 grid) }
{
    commit(
        judging::sos(
            session,
            settings::usual(),
            loco2,
            ticket2,
            loco1,
            ticket1,
            grid,
        ),
        session,
    )
}
