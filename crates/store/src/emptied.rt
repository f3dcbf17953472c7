// The empty session.
ghost use Rattle.std.specs.Prelude.{◌≡◌};
ghost use Rattle.store.specs.Emptied.{emptied};

// Every byte made 0.
#[tactic(auto, unfolding(crate::specs::Emptied::emptied))]
pub fn clear(s: &mut [u8])
    ensures { s.new ≡ emptied s.old }
{
    s.fill(0);
}
