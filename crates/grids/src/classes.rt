// The row classes of the SOS grids.
ghost use Rattle.std.specs.Prelude.{◌≡◌};
ghost use Rattle.grids.specs.Classes.{class_in_override, class_of};

use transitions::names::{FS, LS, OS, OV, PT, SB, SR, TR};

// In Override, by the mode left for it.
#[tactic(auto, unfolding(crate::specs::Classes::among))]
fn class_in_override(left: u32) -> u32
    ensures { result ≡ class_in_override left }
{
    match left {
        SB | OS => 5,
        FS => 6,
        PT => 9,
        _ => 0,
    }
}

// The row class, 1 to 9, or 0 for none: `train_class` and `side_ground` of the rules speak of this number, 0 too.
#[tactic(auto, unfolding(crate::specs::Classes::among, crate::specs::Classes::class_of))]
pub fn class_of(mode: u32, left: u32) -> u32
    ensures { result ≡ class_of mode left }
{
    match mode {
        SR => 1,
        LS => 2,
        OS => 3,
        FS => 4,
        OV => class_in_override(left),
        TR => 7,
        PT => 8,
        _ => 0,
    }
}
