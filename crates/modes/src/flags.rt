// The condition flags: one byte for each of the 91 conditions, condition n at byte n counted from 1.
ghost use Rattle.std.specs.Prelude.{◌≡◌};
ghost use Rattle.modes.specs.Flags.{flag_above_one};

pub(crate) const FLAGS: usize = 91;

// Is some flag neither 0 nor 1? This is the one pass over the flags.
pub(crate) fn has_bad_flag(flags: &[u8]) -> bool
    ensures { result ≡ flag_above_one flags.now }
{
    flags.iter().any(|flag| 1 < *flag)
}
