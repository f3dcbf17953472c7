// The notches of a ring that keeps the newest DEPTH entries of a log, and the number of entries that it keeps.
#![tactic(auto)]

ghost use Rattle.std.specs.Prelude.{suc, min, ◌≡◌};
ghost use Rattle.replay.specs.Demand3.{depth};
ghost use Rattle.ring.specs.Ring.{after, before};

// The entries that are kept at most: as many notches has the ring.
pub const DEPTH: usize = 128;

// The notch that follows this one, round the ring.
pub fn notch_after(notch: usize) -> usize
    ensures { result ≡ after depth notch }
{
    if notch < DEPTH - 1 { notch + 1 } else { 0 }
}

// The notch before this one, round the ring.
pub fn notch_before(notch: usize) -> usize
    ensures { result ≡ before depth notch }
{
    if notch == 0 { DEPTH - 1 } else { notch - 1 }
}

// The entries kept after one more.
pub fn kept_after(kept: usize) -> usize
    ensures { result ≡ min depth (suc kept) }
{
    kept.min(DEPTH - 1) + 1
}
