// Slots marked in a session's book.
ghost use Rattle.std.specs.Prelude.{◌≡◌};
ghost use Rattle.entries.specs.Marks.{slot_put, run_marked};

use kinds::{LAST_SLOT, Slot};
use rules::effect::Run;
use store::layout;

// Slots are counted from 1: the offset that slot 0 would have, and the slot past the last one.
const SLOT_0: usize = layout::BOOK - 1;

const PAST_BOOK: u32 = LAST_SLOT + 1;

// A slot marked; one that is none of the book's marks nothing.
#[tactic(auto, unfolding(crate::specs::Marks::slot_put))]
fn mark_slot(s: &mut [u8], slot: Slot, mark: u32)
    ensures { s.new ≡ slot_put s.old slot.0 mark }
{
    if slot.in_range() {
        numbers::put_byte(s, SLOT_0 + slot.0 as usize, mark);
    }
}

// A run of slots marked taken, or free. Past the last slot there is none left to mark.
pub fn mark_run(s: &mut [u8], run: Run)
    ensures { s.new ≡ run_marked s.old run }
{
    let mark = run.mark();
    let start = run.start.0;
    let end = start.saturating_add(run.slots).min(PAST_BOOK);
    for slot in start..end {
        mark_slot(s, Slot(slot), mark);
    }
}
