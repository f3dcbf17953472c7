// The modes and their numbers. They are numbers and no enum: `is_mode`, `first`, `leaving` and `leaves_from` answer for any number, and C hands
// over such.
ghost use Rattle.std.specs.Prelude.{◌≡◌};
ghost use Rattle.transitions.specs.Names.{is_mode};

pub const SB: u32 = 1;

pub const SR: u32 = 2;

pub const LS: u32 = 3;

pub const FS: u32 = 4;

pub const OV: u32 = 5;

pub const OS: u32 = 6;

pub const TR: u32 = 7;

pub const PT: u32 = 8;

pub const RV: u32 = 9;

pub const SH: u32 = 10;

pub const NL: u32 = 11;

pub const SF: u32 = 12;

pub const IS: u32 = 13;

// Is it the number of a mode?
pub fn is_mode(mode: u32) -> bool
    ensures { result ≡ is_mode mode }
{
    (SB..=IS).contains(&mode)
}
