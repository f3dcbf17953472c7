// What is still to be written of the listing: the first bytes of a buffer that is written when it is full.
ghost use Rattle.std.specs.Prelude.{true, ◌≡◌, ◌+◌, ◌-◌, ◌≤◌, ◌<◌, ◌^◌, length, take};
ghost use Rattle.std.specs.Io.KnownBytes.{Appends};
ghost use Rattle.lines.specs.Line.{room};
ghost use Rattle.bench.specs.Pending.{pending_bytes, nothing_pending, with_more, HasRoom};

use std::io::Write;

// The first `filled` bytes of the buffer. It is writable until a write fails.
// A count and no slice: the buffer is lent anew for each turn. No Option around it: `with_more` of specs/Pending.antt counts on whatever `writable` says.
#[derive(Clone, Copy)]
pub(crate) struct Pending {
    pub filled: usize,
    pub writable: bool,
}

impl Pending {
    pub(crate) fn nothing() -> Pending
        ensures { result ≡ nothing_pending }
    {
        Pending {
            filled: 0,
            writable: true,
        }
    }

    // The same with `n` bytes more.
    pub(crate) fn with(self, n: usize) -> Pending
        requires { self.filled + n < 2 ^ 64 }
        ensures { result ≡ with_more n self }
    {
        Pending {
            filled: self.filled + n,
            ..self
        }
    }

    // Writes what is pending. Behind a write that failed nothing more is written.
    pub(crate) fn written<W: Write>(self, out: &mut W, buffer: &[u8]) -> Pending
        ensures rest { (result.filled ≡ 0) × (result.writable ≡ true → self.writable ≡ true) }
        ensures bytes { result.writable ≡ true → Appends (W.contents out.old) (W.contents out.new) (pending_bytes buffer.now self) }
    {
        let text = &buffer[..self.filled.min(buffer.len())];
        Pending {
            filled: 0,
            writable: self.writable && out.write_all(text).is_ok(),
        }
    }

    // Where the buffer has no room for a line behind what is pending, that is written first.
    pub(crate) fn with_room<W: Write>(self, out: &mut W, buffer: &[u8]) -> Pending
        requires { room ≤ length buffer.now }
        ensures value { HasRoom buffer.now self result }
        ensures bytes { result.writable ≡ true → Appends (W.contents out.old) (W.contents out.new) (take (self.filled - result.filled) buffer.now) }
    {
        if buffer.len() - lines::ROOM < self.filled {
            return self.written(out, buffer);
        }
        self
    }
}
