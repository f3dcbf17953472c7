// One entry of a trace: our mark, the mode before, the flags and the mode after. What follows it is not read.
ghost use Rattle.std.specs.Prelude.{◌≡◌};
ghost use Rattle.modes.specs.Next.{next_step};
ghost use Rattle.traces.specs.Entry.{mode_before, mode_after, flags_of, is_entry, is_out_of_range, follows, refused_with, wrong_at, right, is_right, judged};

use modes::Step;
use transitions::names;

// The bytes of an entry.
pub const BYTES: usize = 95;

// Where its parts stand, behind the mark.
const MODE_BEFORE: usize = 2;

pub const FLAGS: usize = 3;

pub const MODE_AFTER: usize = 94;

// The answer to bytes that do not begin with a whole entry.
pub const BAD_ENTRY: u32 = 24;

// No previous mode: nothing came before. It is a number and no Option, since C hands it to `kb_check_trace_entry`.
pub const NONE: u32 = 0;

// Which of its modes is wrong.
const NEITHER: u32 = 0;

pub const BEFORE: u32 = 1;

const AFTER: u32 = 2;

// What an entry is judged: refused, or one of its modes wrong and another due, or right. It is what `kb_check_trace_entry` hands to C, so the
// answer, which of the modes is wrong, and the mode due are numbers.
#[repr(C)]
#[derive(Clone, Copy)]
pub struct Judged {
    pub answer: u32,
    pub wrong: u32,
    pub due: u32,
}

impl Judged {
    fn refused(answer: u32) -> Judged
        ensures { result ≡ refused_with answer }
    {
        Judged {
            answer,
            wrong: NEITHER,
            due: 0,
        }
    }

    fn wrong(which: u32, due: u32) -> Judged
        ensures { result ≡ wrong_at which due }
    {
        Judged {
            answer: 0,
            wrong: which,
            due,
        }
    }

    pub fn right() -> Judged
        ensures { result ≡ right }
    {
        Judged::wrong(NEITHER, 0)
    }

    pub fn is_right(self) -> bool
        ensures { result ≡ is_right self }
    {
        self.answer == 0 && self.wrong == NEITHER
    }
}

pub fn mode_before(entry: &[u8]) -> u32
    ensures { result ≡ mode_before entry.now }
{
    numbers::byte_at(entry, MODE_BEFORE)
}

pub fn mode_after(entry: &[u8]) -> u32
    ensures { result ≡ mode_after entry.now }
{
    numbers::byte_at(entry, MODE_AFTER)
}

// Do these bytes begin with a whole entry?
fn is_entry(bytes: &[u8]) -> bool
    ensures { result ≡ is_entry bytes.now }
{
    mark_bytes::is_marked(bytes) && BYTES <= bytes.len()
}

// Is something of an entry out of range? The mode step tells it of the mode before and of the flags.
fn is_out_of_range(previous: u32, entry: &[u8], step: Step) -> bool
    requires { step ≡ next_step (mode_before entry.now) (flags_of entry.now) }
    ensures { result ≡ is_out_of_range previous entry.now }
{
    names::IS < previous || step.answer != 0 || !names::is_mode(mode_after(entry))
}

// Does an entry go on from the previous mode? The first one may begin with any.
fn does_follow(previous: u32, entry: &[u8]) -> bool
    ensures { result ≡ follows previous entry.now }
{
    previous == NONE || mode_before(entry) == previous
}

// Judges the entry that the bytes begin with, where `previous` is the mode after of the entry before it, or NONE.
pub fn judge(previous: u32, entry: &[u8]) -> Judged
    ensures { result ≡ judged previous entry.now }
{
    if !is_entry(entry) {
        return Judged::refused(BAD_ENTRY);
    }
    let step = modes::next_mode(mode_before(entry), &entry[FLAGS..MODE_AFTER]);
    if is_out_of_range(previous, entry, step) {
        return Judged::refused(modes::OUT_OF_RANGE);
    }
    if !does_follow(previous, entry) {
        return Judged::wrong(BEFORE, previous);
    }
    let after = mode_after(entry);
    if after != step.mode {
        return Judged::wrong(AFTER, step.mode);
    }
    Judged::right()
}
