// The form of a record: the mark, the kind, the payload's length and the payload.
ghost use Rattle.std.specs.Prelude.{◌≡◌};
ghost use Rattle.records.specs.Form.{longest, kind_of, record_length, is_record, is_run};

use crate::kind::Kind;

// The bytes before the payload.
pub const HEAD: u32 = 4;

// The bytes of the longest record: a reader that holds so many holds enough.
pub const LONGEST: usize = 101;

// A recording has at most so many records.
pub const MOST_RECORDS: u32 = 4294967295;

// The bytes that a reader needs to hold, for a host that asks.
pub fn longest_record() -> usize
    ensures { result ≡ longest }
{
    LONGEST
}

pub fn kind_of(held: &[u8]) -> u32
    ensures { result ≡ kind_of held.now }
{
    numbers::byte_at(held, 2)
}

// The bytes of a whole record of the kind that `held` begins with; of no kind, those before the payload.
#[tactic(auto, unfolding(crate::specs::Form::record_length, crate::specs::Kinds::payload_length))]
pub fn record_length(held: &[u8]) -> u32
    ensures { result ≡ record_length held.now }
{
    match Kind::numbered(kind_of(held)) {
        None => HEAD,
        Some(kind) => HEAD + kind.payload_length(),
    }
}

// Does `held` begin with a whole record?
#[tactic(auto, unfolding(crate::specs::Form::is_record, crate::specs::Kinds::payload_length))]
fn is_record(held: &[u8]) -> bool
    ensures { result ≡ is_record held.now }
{
    let Some(kind) = Kind::numbered(kind_of(held)) else {
        return false;
    };
    mark_bytes::is_marked(held)
        && numbers::byte_at(held, 3) == kind.payload_length()
        && record_length(held) as usize <= held.len()
}

// Does `held` begin with a record that is run, where `before` records came before it?
#[tactic(auto, unfolding(crate::specs::Form::is_run))]
pub fn is_run(held: &[u8], before: u32) -> bool
    ensures { result ≡ is_run held.now before }
{
    before < MOST_RECORDS && is_record(held)
}
