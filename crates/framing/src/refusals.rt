// The grounds of refusal, each with its number and its place: the first bit of the field at fault, counted from the start of the sub-packet, and 0
// where no field is at fault.
ghost use Rattle.std.specs.Prelude.{◌≡◌};
ghost use Rattle.framing.specs.Told.{ground_of};

// A ground that holds. The number in brackets is the bit of the field at fault.
#[derive(Clone, Copy, Debug, PartialEq, Eq)]
pub enum Refusal {
    // fewer than 2 bytes
    TooShort,
    // a type that does not exist, or not the one asked for
    WrongType,
    // a length below 2
    LengthTooSmall,
    // fewer bytes than the length says
    CutOff,
    // a length that is not the one for the entries that the count says
    LengthNotForCount,
    // an output too small
    NoRoom,
    // more gates than the form holds to which they are moved
    TooManyToMove,
    // bytes outside a sub-packet that are no whole entries
    NotWholeEntries,
    // more entries than a sub-packet may have
    TooManyEntries,
    // a value too large for its field's width
    TooWide,
    // a field whose value is not allowed, which starts at this bit
    NotAllowed(usize),
    // padding that is not zero, of which this bit is the first that is set
    PaddingSet(usize),
    // a distance that the form to which it is moved cannot say, which starts at this bit
    DistanceStuck(usize),
}

// Where type, length and count start.
const TYPE_AT: usize = 0;

const LENGTH_AT: usize = 4;

const COUNT_AT: usize = 11;

// The place of a ground by which no field is at fault, and of no refusal.
pub const NOWHERE: usize = 0;

// The number of no refusal.
pub const ACCEPTED: u32 = 0;

impl Refusal {
    // The number that the ground has outside the bench; several share one.
    pub fn number(self) -> u32
        ensures { result ≡ (ground_of self).number }
    {
        match self {
            Refusal::TooShort | Refusal::CutOff | Refusal::NoRoom => 1,
            Refusal::WrongType => 2,
            Refusal::LengthTooSmall
            | Refusal::LengthNotForCount
            | Refusal::TooManyToMove
            | Refusal::NotWholeEntries
            | Refusal::TooManyEntries => 3,
            Refusal::TooWide | Refusal::NotAllowed(_) => 4,
            Refusal::PaddingSet(_) => 5,
            Refusal::DistanceStuck(_) => 6,
        }
    }

    // The first bit of the field at fault.
    pub fn place(self) -> usize
        ensures { result ≡ (ground_of self).place }
    {
        match self {
            Refusal::WrongType => TYPE_AT,
            Refusal::LengthTooSmall => LENGTH_AT,
            Refusal::LengthNotForCount | Refusal::TooManyToMove => COUNT_AT,
            Refusal::NotAllowed(bit) | Refusal::PaddingSet(bit) | Refusal::DistanceStuck(bit) =>
                bit,
            Refusal::TooShort
            | Refusal::CutOff
            | Refusal::NoRoom
            | Refusal::NotWholeEntries
            | Refusal::TooManyEntries
            | Refusal::TooWide => NOWHERE,
        }
    }
}
