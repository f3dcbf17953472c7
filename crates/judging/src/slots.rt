// The search of the slot book for a run of free slots.
ghost use Rattle.std.specs.Prelude.{◌≡◌};
ghost use Rattle.rules.specs.Slots.{slot_of, is_free, lowest_run};
ghost use Rattle.store.specs.Stands.{book_of};

use kinds::Slot;
use store::view;

const LAST_SLOT: usize = kinds::LAST_SLOT as usize;

// Is there a slot with this number, and is it free?
fn is_free(s: &[u8], slot: usize) -> bool
    ensures { result ≡ is_free (book_of s.now) (slot_of slot) }
{
    if slot < 1 {
        return false;
    }
    if slot > LAST_SLOT {
        return false;
    }
    !view::is_taken(s, Slot(slot as u32))
}

// The lowest start at which n slots side by side are free. The outer loop goes over the starts, the inner one over the run, which is left by the label
// at the first slot that is taken: a `for` has no `break` that yields the start.
pub(crate) fn lowest_run(s: &[u8], n: u32) -> Option<Slot>
    ensures { result ≡ lowest_run (book_of s.now) n }
{
    let mut start: usize = 1;
    'starts: loop {
        if start > LAST_SLOT {
            break None;
        }
        let end = start + n as usize;
        for slot in start..end {
            if !is_free(s, slot) {
                start += 1;
                continue 'starts;
            }
        }
        break Some(Slot(start as u32));
    }
}
