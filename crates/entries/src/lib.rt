// An entry of the log by itself: what undoes an effect, kept in the bytes from one on, and undone. It is a run of slots with the mark that they
// had, and one row or two as they were. All offsets are store's. Here is what keeping and undoing share.
#![tactic(auto)]

pub mod kept;
pub mod marks;
pub mod undone;

ghost use Rattle.std.specs.Prelude.{◌≡◌, ◌+◌, ◌≤◌, length};
ghost use Rattle.rows.specs.Row.{row_bytes};
ghost use Rattle.entries.specs.Entry.{has_entry};
ghost use Rattle.entries.specs.Copied.{row_copied};

use rows::row;
use store::layout;
use trains::sought::ROWS;

// Where the last entry starts.
const LAST_ENTRY: usize = layout::SESSION - layout::ENTRY;

// Do the bytes, which are a session's, have all of the entry that starts at one?
#[tactic(auto, unfolding(replay::specs::Demand3::depth))]
fn has_entry(s: &[u8], at: usize) -> bool
    ensures { result ≡ has_entry s.now at }
{
    layout::is_session(s) && at <= LAST_ENTRY
}

// Row i, where it is one of the register's, from an offset to another, by way of other bytes.
// std's copy_within takes 154 instructions a row where the compiler can't tell which way it goes; this takes 27.
fn copy_row(s: &mut [u8], i: u32, from: usize, to: usize)
    requires { from + row_bytes ≤ length s.old }
    ensures { s.new ≡ row_copied s.old i from to }
{
    if (i as usize) < ROWS {
        let mut kept = [0_u8; row::ROW];
        numbers::copy(s, from, row::ROW, &mut kept, 0);
        numbers::copy(&kept, 0, row::ROW, s, to);
    }
}
