// What undoes an effect, kept before the effect is put.
ghost use Rattle.std.specs.Prelude.{◌≡◌, ◌+◌, ◌≤◌, length, ◌&&◌};
ghost use Rattle.trains.specs.Sought.{row_count};
ghost use Rattle.store.specs.Layout.{session_bytes, entry_bytes, kept_row_bytes};
ghost use Rattle.entries.specs.Entry.{has_entry};
ghost use Rattle.entries.specs.Kept.{in_bounds, run_kept, row_kept, kept_in};

use rules::effect::{Effect, Run};
use store::layout;
use trains::sought::ROWS;

// Can an entry keep what undoes an effect? One row changes, and another or none, and the run's start and slots are bytes.
fn in_bounds(effect: &Effect) -> bool
    ensures { result ≡ in_bounds effect.now }
{
    let run = effect.run;
    effect.changed.row < ROWS && effect.also.row <= ROWS && run.start.0 < 256 && run.slots < 256
}

// A run and its mark kept in the entry that starts at a byte.
#[tactic(auto, unfolding(replay::specs::Demand3::depth, crate::specs::Kept::run_kept))]
fn keep_run(s: &mut [u8], run: Run, at: usize)
    requires { at + entry_bytes ≤ session_bytes }
    ensures { s.new ≡ run_kept s.old run at }
{
    numbers::put_byte(s, at, run.start.0);
    numbers::put_byte(s, at + layout::RUN_SLOTS, run.slots);
    numbers::put_byte(s, at + layout::RUN_MARK, run.mark());
}

// A row's number kept from a byte on, and behind it the row. Of no row only the number is kept.
#[tactic(auto, unfolding(replay::specs::Demand3::depth, crate::specs::Kept::row_kept))]
fn keep_row(s: &mut [u8], i: usize, at: usize)
    requires { (length s.old ≡ session_bytes) × (i ≤ row_count) × (at + kept_row_bytes ≤ session_bytes) }
    ensures { s.new ≡ row_kept s.old i at }
{
    let number = i as u32;
    numbers::put_byte(s, at, number);
    crate::copy_row(s, number, layout::row_offset(number), at + 1);
}

// What undoes an effect, kept before it in the entry that starts at a byte, where it can be: the run with its mark before, and the rows as they
// are; and whether it was.
#[tactic(auto, unfolding(replay::specs::Demand3::depth, crate::specs::Kept::kept_in, crate::specs::Kept::entry_kept))]
pub fn keep(s: &mut [u8], effect: &Effect, at: usize) -> bool
    ensures { (result ≡ (has_entry s.old at && in_bounds effect.now)) × (s.new ≡ kept_in s.old effect.now at) }
{
    if !(crate::has_entry(s, at) && in_bounds(effect)) {
        return false;
    }
    keep_run(s, effect.run.turned(), at);
    keep_row(s, effect.changed.row, at + layout::CHANGED);
    keep_row(s, effect.also.row, at + layout::ALSO);
    true
}
