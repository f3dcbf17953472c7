// An effect taken into the bytes: what undoes it is pushed on the log first, then its slots are marked and its rows put.
ghost use Rattle.std.specs.Prelude.{◌≡◌};
ghost use Rattle.ledger.specs.Settled.{can_push, pushed_in, change_put, settled_in};

use entries::{kept, marks};
use kinds::Ticket;
use rows::row;
use rules::effect::{Change, Effect};
use store::{layout, view};
use trains::sought::ROWS;

// What undoes an effect pushed, and the counter set, where that can be; and whether it was.
#[tactic(auto, using(crate::proofs::BoundsLaws::notch_entry, store::proofs::ViewLaws::head_in, ring::proofs::Rings::after_in), unfolding(replay::specs::Demand3::depth, crate::specs::Settled::pushed_in, crate::specs::Settled::pushed, entries::specs::Kept::kept_in))]
fn push(s: &mut [u8], counter: Ticket, effect: &Effect) -> bool
    ensures { (result ≡ can_push s.old effect.now) × (s.new ≡ pushed_in s.old counter effect.now) }
{
    let head = view::head(s);
    let kept = ring::kept_after(view::kept(s));
    if !kept::keep(s, effect, crate::entry_offset(head)) {
        return false;
    }
    crate::put_header(s, counter, kept, ring::notch_after(head));
    true
}

// A row put into the register, where its number is one of the register's.
#[tactic(auto, unfolding(crate::specs::Settled::change_put))]
fn put_change(s: &mut [u8], change: Change)
    ensures { s.new ≡ change_put s.old change }
{
    if change.row < ROWS {
        row::put_row(s, layout::row_offset(change.row as u32), change.train);
    }
}

// The one way in which an accepted operation changes a session. Bytes of another length, and an effect out of bounds, are left alone.
#[tactic(auto, unfolding(crate::specs::Settled::settled_in, crate::specs::Settled::settled, crate::specs::Settled::effect_put, crate::specs::Settled::pushed_in))]
pub fn settle(s: &mut [u8], counter: Ticket, effect: Effect)
    ensures { s.new ≡ settled_in s.old counter effect }
{
    if push(s, counter, &effect) {
        marks::mark_run(s, effect.run);
        put_change(s, effect.changed);
        put_change(s, effect.also);
    }
}
