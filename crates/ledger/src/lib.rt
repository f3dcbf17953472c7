// What moves a session: an effect taken into its bytes, with the entry that undoes it kept in the log's ring, and entries undone. Here is what
// both share: the ring's notches and the header.
#![tactic(auto)]

pub mod back;
pub mod settled;

ghost use Rattle.std.specs.Prelude.{◌≡◌, ◌^◌, ◌<◌};
ghost use Rattle.replay.specs.Demand3.{depth};
ghost use Rattle.store.specs.Layout.{entry_offset};
ghost use Rattle.ledger.specs.Log.{headed};

use kinds::Ticket;
use store::layout;

// The entry in a notch of the ring.
#[tactic(auto, unfolding(replay::specs::Demand3::depth))]
fn entry_offset(notch: usize) -> usize
    requires { notch < depth }
    ensures { result ≡ entry_offset notch }
{
    layout::LOG + layout::ENTRY * notch
}

// The header: the ticket counter, the entries kept and the notch that the next entry goes to.
#[tactic(auto, unfolding(crate::specs::Log::headed))]
fn put_header(s: &mut [u8], counter: Ticket, kept: usize, head: usize)
    requires { (kept < 2 ^ 32) × (head < 2 ^ 32) }
    ensures { s.new ≡ headed s.old counter kept head }
{
    numbers::put_word(s, layout::COUNTER, counter.0);
    numbers::put_word(s, layout::KEPT, kept as u32);
    numbers::put_word(s, layout::HEAD, head as u32);
}
