// The grounds on which a call on a session is refused, in the order of the checks.
ghost use Rattle.std.specs.Prelude.{◌≡◌};
ghost use Rattle.rules.specs.Refusals.{number_of};

#[derive(Clone, Copy, PartialEq, Eq)]
pub enum Refusal {
    // a record with a wrong mark, kind or length, or cut
    BadRecord,
    // the lent session has another length
    WrongLength,
    // a named loco number out of range
    BadLoco,
    // a request for no bytes, or for too many
    BadBytes,
    // the loco is registered already
    AlreadyRegistered,
    // 24 trains are registered
    RegisterFull,
    // the ticket counter is at its last number
    NoTicketLeft,
    // no free run of slots is long enough
    NoFreeRun,
    // no live train has this loco and ticket
    NoLiveTrain,
    // both trains of an SOS are the same
    SameTrain,
    // a position that is none: a location out of range, or the rear above the front
    BadPosition,
    // an authority's end or a danger location out of range
    BadLocation,
    // no grid has this number
    BadGrid,
    // flags that are not 91 of 0 or 1, or a row whose mode is none
    BadFlags,
    // a train of an SOS whose mode has no row class
    NoClass,
    // the grid gives nothing for L2's class
    NotApplicable,
    // a position that the measure needs was never reported
    NoPosition,
    // no place for an order
    NoPlace,
    // no order under that ticket
    NoSuchOrder,
    // a step back by more than the entries kept
    TooFarBack,
}

impl Refusal {
    // The number that C and a listing are told.
    #[tactic(auto, unfolding(crate::specs::Refusals::number_of))]
    pub fn number(self) -> u32
        ensures { result ≡ number_of self }
    {
        match self {
            Refusal::BadRecord => 24,
            Refusal::WrongLength => 34,
            Refusal::BadLoco => 10,
            Refusal::BadBytes => 11,
            Refusal::AlreadyRegistered => 12,
            Refusal::RegisterFull => 13,
            Refusal::NoTicketLeft => 14,
            Refusal::NoFreeRun => 15,
            Refusal::NoLiveTrain => 16,
            Refusal::SameTrain => 23,
            Refusal::BadPosition | Refusal::BadLocation | Refusal::BadGrid | Refusal::BadFlags =>
                17,
            Refusal::NoClass | Refusal::NotApplicable => 19,
            Refusal::NoPosition => 18,
            Refusal::NoPlace => 20,
            Refusal::NoSuchOrder => 21,
            Refusal::TooFarBack => 22,
        }
    }
}
