// The call that a record asks for. Of a record's numbers, here alone one becomes a loco or a ticket.
ghost use Rattle.std.specs.Prelude.{◌≡◌, ◌+◌};
ghost use Rattle.records.specs.Asked.{meant_by};
ghost use Rattle.records.specs.Kinds.{flags_in, flags_start, call_by};

use crate::kind::Kind;
use kinds::{Loco, Ticket};
use rules::deeds::Deed;

// The flags of a deed are lent beside it. L2 is named first, then L1.
#[derive(Clone, Copy)]
pub enum Asked {
    Request(Loco, u32),
    Release(Loco, Ticket),
    On(Loco, Ticket, Deed),
    Sos(Loco, Ticket, Loco, Ticket, u32),
    StepBack(u32),
}

// Where the flags begin, behind loco and ticket.
const FLAGS: usize = 6;

// They stand where they are in the payload; of one that is too short there are none. `get` says which bytes it finds, and not where they lie.
#[tactic(auto, unfolding(crate::specs::Kinds::flags_start))]
pub fn flags_in(payload: &[u8]) -> &[u8]
    ensures { (result.now ≡ flags_in payload.now) × (result.ref_ptr.1 ≡ payload.entry.ref_ptr.1 + flags_start payload.now) }
{
    if payload.len() < FLAGS {
        &payload[..0]
    } else {
        &payload[FLAGS..]
    }
}

// A number that is no kind takes nothing, and of nothing it makes a step back by 0; no record has one.
#[tactic(auto, unfolding(crate::specs::Kinds::among, crate::specs::Kinds::call_by))]
pub fn asked_by(kind: u32, payload: &[u8]) -> Asked
    ensures { meant_by result (flags_in payload.now) ≡ call_by kind payload.now }
{
    let loco = Loco(numbers::word_at(payload, 0));
    let ticket = Ticket(numbers::half_at(payload, 4));
    let location = numbers::word_at(payload, 6);
    match Kind::numbered(kind) {
        Some(Kind::Request) => Asked::Request(loco, numbers::half_at(payload, 4)),
        Some(Kind::Release) => Asked::Release(loco, ticket),
        Some(Kind::Flags) => Asked::On(loco, ticket, Deed::Flags),
        Some(Kind::Position) => Asked::On(
            loco,
            ticket,
            Deed::Position(location, numbers::word_at(payload, 10)),
        ),
        Some(Kind::Authority) => Asked::On(loco, ticket, Deed::Authority(location)),
        Some(Kind::Danger) => Asked::On(loco, ticket, Deed::Danger(location)),
        Some(Kind::Sos) => Asked::Sos(
            loco,
            ticket,
            Loco(location),
            Ticket(numbers::half_at(payload, 10)),
            numbers::byte_at(payload, 12),
        ),
        Some(Kind::Clear) => Asked::On(
            loco,
            ticket,
            Deed::Clear(Ticket(numbers::half_at(payload, 6))),
        ),
        Some(Kind::StepBack) | None => Asked::StepBack(numbers::half_at(payload, 0)),
    }
}
