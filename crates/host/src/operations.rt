// The operations on a lent session, under their names in C. `number` is a loco's number, and `under` the ticket that it was granted.
// Each is a function of its own, however alike: C calls it by its name, and `Links` names it.
ghost use Rattle.std.specs.Prelude.{◌≡◌};
ghost use Rattle.store.specs.Layout.{session_bytes};
ghost use Rattle.rules.specs.Deeds.{flags, position, authority, danger, clear};
ghost use Rattle.rules.specs.Rules.{Op};
ghost use Rattle.session.specs.Answers.{answer_to, bytes_after, start_answer, start_after};
ghost use Rattle.stepback.specs.Back.{back_answer, back_after};
ghost use Rattle.host.specs.Kinds.{loco, ticket};

use kinds::{Loco, Ticket};
use rules::deeds::Deed;
use rules::ruling::Answer;
use session::operations;
use store::layout;

// The bytes that a session takes.
#[tactic(auto, unfolding(replay::specs::Demand3::depth))]
#[unsafe(no_mangle)]
pub extern "C" fn kb_session_size() -> usize
    ensures { result ≡ session_bytes }
{
    layout::SESSION
}

#[unsafe(no_mangle)]
pub extern "C" fn kb_start(session: &mut [u8]) -> Answer
    ensures value { result ≡ start_answer session.old }
    ensures session_after { session.new ≡ start_after session.old }
{
    operations::start(session)
}

#[unsafe(no_mangle)]
pub extern "C" fn kb_request(session: &mut [u8], number: u32, bytes: u32) -> Answer
    ensures value { result ≡ answer_to session.old (Op.request (loco number) bytes) }
    ensures session_after { session.new ≡ bytes_after session.old (Op.request (loco number) bytes) }
{
    operations::request(session, Loco(number), bytes)
}

#[unsafe(no_mangle)]
pub extern "C" fn kb_release(session: &mut [u8], number: u32, under: u32) -> Answer
    ensures value { result ≡ answer_to session.old (Op.release (loco number) (ticket under)) }
    ensures session_after { session.new ≡ bytes_after session.old (Op.release (loco number) (ticket under)) }
{
    operations::release(session, Loco(number), Ticket(under))
}

#[unsafe(no_mangle)]
pub extern "C" fn kb_flags(session: &mut [u8], number: u32, under: u32, bits: &[u8]) -> Answer
    ensures value { result ≡ answer_to session.old (Op.on (loco number) (ticket under) (flags bits.now)) }
    ensures session_after { session.new ≡ bytes_after session.old (Op.on (loco number) (ticket under) (flags bits.now)) }
{
    operations::on(session, Loco(number), Ticket(under), Deed::Flags, bits)
}

#[unsafe(no_mangle)]
pub extern "C" fn kb_position(
    session: &mut [u8],
    number: u32,
    under: u32,
    front: u32,
    rear: u32,
) -> Answer
    ensures value { result ≡ answer_to session.old (Op.on (loco number) (ticket under) (position front rear)) }
    ensures session_after { session.new ≡ bytes_after session.old (Op.on (loco number) (ticket under) (position front rear)) }
{
    operations::on(
        session,
        Loco(number),
        Ticket(under),
        Deed::Position(front, rear),
        b"",
    )
}

#[unsafe(no_mangle)]
pub extern "C" fn kb_authority(session: &mut [u8], number: u32, under: u32, end: u32) -> Answer
    ensures value { result ≡ answer_to session.old (Op.on (loco number) (ticket under) (authority end)) }
    ensures session_after { session.new ≡ bytes_after session.old (Op.on (loco number) (ticket under) (authority end)) }
{
    operations::on(
        session,
        Loco(number),
        Ticket(under),
        Deed::Authority(end),
        b"",
    )
}

#[unsafe(no_mangle)]
pub extern "C" fn kb_danger(session: &mut [u8], number: u32, under: u32, location: u32) -> Answer
    ensures value { result ≡ answer_to session.old (Op.on (loco number) (ticket under) (danger location)) }
    ensures session_after { session.new ≡ bytes_after session.old (Op.on (loco number) (ticket under) (danger location)) }
{
    operations::on(
        session,
        Loco(number),
        Ticket(under),
        Deed::Danger(location),
        b"",
    )
}

// SOS between L2, named first, and L1.
#[unsafe(no_mangle)]
pub extern "C" fn kb_sos(
    session: &mut [u8],
    number2: u32,
    under2: u32,
    number1: u32,
    under1: u32,
    grid: u32,
) -> Answer
    ensures value { result ≡ answer_to session.old (Op.sos (loco number2) (ticket under2) (loco number1) (ticket under1) grid) }
    ensures session_after { session.new ≡ bytes_after session.old (Op.sos (loco number2) (ticket under2) (loco number1) (ticket under1) grid) }
{
    operations::sos(
        session,
        Loco(number2),
        Ticket(under2),
        Loco(number1),
        Ticket(under1),
        grid,
    )
}

#[unsafe(no_mangle)]
pub extern "C" fn kb_clear(session: &mut [u8], number: u32, under: u32, other: u32) -> Answer
    ensures value { result ≡ answer_to session.old (Op.on (loco number) (ticket under) (clear (ticket other))) }
    ensures session_after { session.new ≡ bytes_after session.old (Op.on (loco number) (ticket under) (clear (ticket other))) }
{
    operations::on(
        session,
        Loco(number),
        Ticket(under),
        Deed::Clear(Ticket(other)),
        b"",
    )
}

#[unsafe(no_mangle)]
pub extern "C" fn kb_step_back(session: &mut [u8], k: u32) -> Answer
    ensures value { result ≡ back_answer session.old k }
    ensures session_after { session.new ≡ back_after session.old k }
{
    stepback::step_back(session, k)
}
