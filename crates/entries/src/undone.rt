// An entry undone: its run marked and its rows put back as they were.
ghost use Rattle.std.specs.Prelude.{◌≡◌, ◌+◌, ◌≤◌, length};
ghost use Rattle.store.specs.Layout.{session_bytes, entry_bytes, kept_row_bytes};
ghost use Rattle.entries.specs.Entry.{run_at};
ghost use Rattle.entries.specs.Undone.{row_back, undone_in};

use crate::marks;
use kinds::Slot;
use rules::effect::Run;
use store::layout;

// The run of the entry that starts at a byte, with the mark that it had.
#[tactic(auto, unfolding(replay::specs::Demand3::depth))]
fn run_at(s: &[u8], at: usize) -> Run
    requires { at + entry_bytes ≤ session_bytes }
    ensures { result ≡ run_at s.now at }
{
    Run {
        start: Slot(numbers::byte_at(s, at)),
        slots: numbers::byte_at(s, at + layout::RUN_SLOTS),
        taken: numbers::byte_at(s, at + layout::RUN_MARK) != 0,
    }
}

// The row that is kept from a byte on; a number that is none of the register's restores nothing.
#[tactic(auto, unfolding(crate::specs::Undone::row_back))]
fn restore_row(s: &mut [u8], at: usize)
    requires { (length s.old ≡ session_bytes) × (at + kept_row_bytes ≤ session_bytes) }
    ensures { s.new ≡ row_back s.old at }
{
    let number = numbers::byte_at(s, at);
    crate::copy_row(s, number, at + 1, layout::row_offset(number));
}

// The entry that starts at a byte undone. Bytes that have no entry there are left alone.
#[tactic(auto, unfolding(replay::specs::Demand3::depth, crate::specs::Undone::undone_in, crate::specs::Undone::entry_back, crate::specs::Undone::run_back))]
pub fn undo(s: &mut [u8], at: usize)
    ensures { s.new ≡ undone_in s.old at }
{
    if crate::has_entry(s, at) {
        let run = run_at(s, at);
        marks::mark_run(s, run);
        restore_row(s, at + layout::CHANGED);
        restore_row(s, at + layout::ALSO);
    }
}
