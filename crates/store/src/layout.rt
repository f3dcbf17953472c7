// Where everything stands in a session's bytes. Each offset is worked out from the one before it, and so is the session's size.
ghost use Rattle.std.specs.Prelude.{◌≡◌};
ghost use Rattle.store.specs.Layout.{is_session, row_offset};

use kinds::LAST_SLOT;
use rows::row;
use trains::sought;

// The header: three numbers of 4 bytes.
const WORD: usize = 4;

pub const COUNTER: usize = 0;

pub const KEPT: usize = COUNTER + WORD;

pub const HEAD: usize = KEPT + WORD;

// The slot book, a byte for each slot.
pub const BOOK: usize = HEAD + WORD;

// The register.
pub const REGISTER: usize = BOOK + LAST_SLOT as usize;

// The log's ring, behind the register.
pub const LOG: usize = REGISTER + row::ROW * sought::ROWS;

// Where an entry, counted from its start, keeps its run (start, slots, mark before) and its two rows, each behind its number.
pub const RUN_SLOTS: usize = 1;

pub const RUN_MARK: usize = RUN_SLOTS + 1;

pub const CHANGED: usize = RUN_MARK + 1;

pub const ALSO: usize = CHANGED + 1 + row::ROW;

// The bytes of an entry.
pub const ENTRY: usize = ALSO + 1 + row::ROW;

// The bytes of a session.
pub const SESSION: usize = LOG + ENTRY * ring::DEPTH;

// Are there as many bytes as a session has?
#[tactic(auto, unfolding(replay::specs::Demand3::depth))]
pub fn is_session(s: &[u8]) -> bool
    ensures { result ≡ is_session s.now }
{
    s.len() == SESSION
}

// Row i of the register, counted from 0.
pub fn row_offset(i: u32) -> usize
    ensures { result ≡ row_offset i }
{
    REGISTER + row::ROW * (i as usize)
}
