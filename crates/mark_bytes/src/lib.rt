// Our two-byte mark, 4B 56: every record of a recording and every entry of a trace begins with it.
#![tactic(auto)]

ghost use Rattle.std.specs.Prelude.{◌≡◌};
ghost use Rattle.mark_bytes.specs.Mark.{is_marked};

const MARK: u32 = 0x4B56;

// Do these bytes begin with it?
pub fn is_marked(bytes: &[u8]) -> bool
    ensures { result ≡ is_marked bytes.now }
{
    numbers::half_at(bytes, 0) == MARK
}
