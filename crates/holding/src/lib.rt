// An input that is read piece by piece: what is held of it is a stretch of a buffer, which is read into as its items are used, one after another.
// `longest` is the bytes of the longest item.
#![tactic(auto)]

ghost use Rattle.std.specs.Prelude.{◌≡◌, ◌+◌, ◌≤◌, length, take, drop, min, true, false, Err, IfOk, OnErr};
ghost use Rattle.std.specs.Io.KnownBytes.{Consumes, IsAtEnd};
ghost use Rattle.holding.specs.Held.{held_bytes, held_at, nothing_held, last_held, behind_by, is_end, given_by, ReadOn, IsReady};

use std::io;
use std::io::Read;

// The bytes of the buffer from `at` up to `end`. The input has ended once a read has given nothing, and failed where that read did.
// Two flags and no enum: `ready` and `Held::is_end` answer for an input with neither of them, with either and with both.
#[derive(Clone, Copy, Default)]
pub struct Held {
    pub at: usize,
    pub end: usize,
    pub ended: bool,
    pub failed: bool,
}

impl Held {
    pub fn nothing() -> Held
        ensures { result ≡ nothing_held }
    {
        Held::default()
    }

    // The same without the bytes that an item used.
    pub fn behind(self, used: usize) -> Held
        ensures { result ≡ behind_by used self }
    {
        Held {
            at: self.at.saturating_add(used).min(self.end),
            ..self
        }
    }

    // Is there no item, since nothing can be read, or nothing is left?
    #[tactic(auto, unfolding(crate::specs::Held::is_end))]
    pub fn is_end(self, bytes: &[u8]) -> bool
        ensures { result ≡ is_end self bytes.now }
    {
        self.failed || bytes.is_empty()
    }

    // The first bytes up to `end`, behind which nothing more comes.
    fn last(end: usize, failed: bool) -> Held
        ensures { result ≡ last_held end failed }
    {
        Held {
            at: 0,
            end,
            ended: true,
            failed,
        }
    }

    // The bytes that a read behind the first `end` gave. Where it gave none, what is held is the last; it failed where the read did.
    fn given(read: io::Result<usize>, end: usize) -> Result<usize, Held>
        ensures count { IfOk read (λ n. result ≡ given_by n end) }
        ensures failure { OnErr read (result ≡ Err (last_held end true)) }
    {
        match read {
            Ok(0) => Err(Held::last(end, false)),
            Ok(count) => Ok(count),
            Err(_) => Err(Held::last(end, true)),
        }
    }

    // Its offsets in a buffer of so many bytes: no offset lies outside it.
    fn within(self, size: usize) -> (usize, usize)
        ensures end { result.1 ≡ min self.end size }
        ensures at { result.0 ≡ min self.at result.1 }
    {
        let end = self.end.min(size);
        (self.at.min(end), end)
    }
}

// The bytes that are held, where they stand in the buffer.
pub fn part(buffer: &[u8], held: Held) -> &[u8]
    ensures value { result.now ≡ held_bytes buffer.now held }
    ensures place { result.ref_ptr.1 ≡ buffer.entry.ref_ptr.1 + held_at (length buffer.now) held }
{
    let (at, end) = held.within(buffer.len());
    &buffer[at..end]
}

// Reads behind the first `kept` bytes until the longest item would be whole, or nothing more comes.
fn read_on<R: Read>(reader: &mut R, buffer: &mut [u8], kept: usize, longest: usize) -> Held
    requires { kept ≤ length buffer.old }
    ensures value { ReadOn longest kept buffer.old buffer.new result }
    ensures taken { Consumes (R.remaining reader.old) (R.remaining reader.new) (drop kept (take result.end buffer.new)) }
    ensures whole { longest ≤ length buffer.old → result.ended ≡ true → result.failed ≡ false
        → IsAtEnd (R.remaining reader.new) }
{
    let mut end = kept;
    // no `for`: how many bytes a read gives is known only once it has given them
    while end < longest {
        match Held::given(reader.read(&mut buffer[end..]), end) {
            Ok(count) => end += count,
            Err(last) => return last,
        }
    }
    Held {
        end,
        ..Held::nothing()
    }
}

// Holds the longest item, or all that is left. What is held is moved to the front only where it is shorter, so a byte is moved at
// most once for each read.
pub fn ready<R: Read>(reader: &mut R, buffer: &mut [u8], held: Held, longest: usize) -> Held
    ensures value { IsReady longest buffer.old held buffer.new result }
    ensures taken { Consumes (R.remaining reader.old) (R.remaining reader.new)
        (drop (length (held_bytes buffer.old held)) (held_bytes buffer.new result)) }
    ensures whole { longest ≤ length buffer.old → held.ended ≡ false → result.ended ≡ true
        → result.failed ≡ false → IsAtEnd (R.remaining reader.new) }
{
    let (at, end) = held.within(buffer.len());
    let kept = end - at;
    if held.ended || longest <= kept {
        return held;
    }
    buffer.copy_within(at..end, 0);
    read_on(reader, buffer, kept, longest)
}
