// The rules asked of the lent bytes of a session, which are only read: each operation judged.
#![tactic(auto)]

mod named;
mod slots;

ghost use Rattle.std.specs.Prelude.{◌≡◌};
ghost use Rattle.rules.specs.Deeds.{meant};
ghost use Rattle.rules.specs.Rules.{Op};
ghost use Rattle.rules.specs.Meant.{answer_meant, ruling_meant};
ghost use Rattle.store.specs.Stands.{counter_of};
ghost use Rattle.judging.specs.Judged.{judged, JudgedAlike, end_judged};

use kinds::{Loco, Ticket};
use rules::deeds::Deed;
use rules::refusals::Refusal;
use rules::registering;
use rules::registering::grant;
use rules::ruling::{Ruling, Told};
use rules::settings::Settings;
use rules::slots::{is_request, slots_for};
use store::view;

// The first empty row, the next ticket, and the lowest start where the slots are free; or the first ground on which it is refused.
pub fn request(s: &[u8], settings: Settings, loco: Loco, bytes: u32) -> Result<Ruling, Refusal>
    ensures { ruling_meant (counter_of s.now) result ≡ judged settings s.now (Op.request loco bytes) }
{
    if !loco.in_range() {
        return Err(Refusal::BadLoco);
    }
    if !is_request(settings.carries, bytes) {
        return Err(Refusal::BadBytes);
    }
    if view::find_loco(s, loco).is_some() {
        return Err(Refusal::AlreadyRegistered);
    }
    let row = view::find_empty(s).ok_or(Refusal::RegisterFull)?;
    let ticket = view::counter(s).next().ok_or(Refusal::NoTicketLeft)?;
    let wanted = slots_for(settings.carries, bytes);
    let start = slots::lowest_run(s, wanted).ok_or(Refusal::NoFreeRun)?;
    Ok(grant(loco, wanted, ticket, row, start))
}

pub fn release(s: &[u8], loco: Loco, ticket: Ticket) -> Result<Ruling, Refusal>
    ensures { JudgedAlike (ruling_meant (counter_of s.now) result) s.now (Op.release loco ticket) }
{
    registering::release(named::find(s, loco, ticket), view::counter(s))
}

// A deed on one train; the flags are looked at where the deed is flags.
pub fn on(s: &[u8], loco: Loco, ticket: Ticket, deed: Deed, flags: &[u8]) -> Result<Ruling, Refusal>
    ensures { JudgedAlike (ruling_meant (counter_of s.now) result) s.now (Op.on loco ticket (meant deed flags.now)) }
{
    acting::on(named::find(s, loco, ticket), deed, flags, view::counter(s))
}

// SOS between L2, named first, and L1.
pub fn sos(
    s: &[u8],
    settings: Settings,
    loco2: Loco,
    ticket2: Ticket,
    loco1: Loco,
    ticket1: Ticket,
    grid: u32,
) -> Result<Ruling, Refusal>
    ensures { ruling_meant (counter_of s.now) result ≡ judged settings s.now (Op.sos loco2 ticket2 loco1 ticket1 grid) }
{
    let l2 = named::find(s, loco2, ticket2);
    let l1 = named::find(s, loco1, ticket1);
    raising::raise(settings.margin, grid, view::counter(s), l2, l1)
}

// The effective end of a named train, which changes nothing.
pub fn end(s: &[u8], loco: Loco, ticket: Ticket) -> Result<Told, Refusal>
    ensures { answer_meant result ≡ end_judged s.now loco ticket }
{
    acting::end_asked(named::find(s, loco, ticket))
}
