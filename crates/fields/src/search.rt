// The search for a bit that is set.
ghost use Rattle.std.specs.Prelude.{◌≡◌, ◌-◌};
ghost use Rattle.fields.specs.FirstSet.{first_set};

// The first bit that is 1 from position `at` on and before position `end`, or the position behind them where none is.
pub fn first_set(s: &[u8], at: usize, end: usize) -> usize
    ensures { result ≡ first_set s.now at (end - at) }
{
    for p in at..end {
        if crate::read_field(s, p, 1) == 1 {
            return p;
        }
    }
    at.max(end)
}
