// Entries undone, the latest first.
ghost use Rattle.std.specs.Prelude.{◌≡◌, length};
ghost use Rattle.store.specs.Layout.{session_bytes};
ghost use Rattle.ledger.specs.Back.{stepped, stepped_in};

use entries::undone;
use store::{layout, view};

// The latest entry undone: one fewer is kept, where there is one. The ticket counter stays.
#[tactic(auto, using(crate::proofs::BoundsLaws::notch_entry, store::proofs::ViewLaws::head_in, ring::proofs::Rings::before_in), unfolding(replay::specs::Demand3::depth, crate::specs::Back::stepped, entries::specs::Undone::undone_in))]
fn step_one(s: &mut [u8])
    requires { length s.old ≡ session_bytes }
    ensures { s.new ≡ stepped s.old }
{
    let counter = view::counter(s);
    let kept = view::kept(s);
    let head = ring::notch_before(view::head(s));
    undone::undo(s, crate::entry_offset(head));
    crate::put_header(s, counter, kept.saturating_sub(1), head);
}

// The latest k entries undone. Bytes of another length are left alone.
#[tactic(auto, unfolding(crate::specs::Back::stepped_in))]
pub fn step_back(s: &mut [u8], k: usize)
    ensures { s.new ≡ stepped_in k s.old }
{
    if !layout::is_session(s) {
        return;
    }
    for _ in 0..k {
        step_one(s);
    }
}
