// A whole trace: its entries judged one after another, each under the mode after of the one before it.
ghost use Rattle.std.specs.Prelude.{◌≡◌};
ghost use Rattle.traces.specs.Trace.{yes, told_at, checked};

use crate::entry;
use crate::entry::Judged;

// The first entry that is refused or wrong, counted from 1, with the refusal or the mode due; zeros where there is none: `kb_check_trace` hands it to C.
#[repr(C)]
#[derive(Clone, Copy)]
pub struct Checked {
    pub answer: u32,
    pub entry: usize,
    pub due: u32,
}

fn yes() -> Checked
    ensures { result ≡ yes }
{
    Checked {
        answer: 0,
        entry: 0,
        due: 0,
    }
}

fn told_at(number: usize, judged: Judged) -> Checked
    ensures { result ≡ told_at number judged }
{
    Checked {
        answer: judged.answer,
        entry: number,
        due: judged.due,
    }
}

// Is the trace right, and if not, which entry is the first that is not?
pub fn check(trace: &[u8]) -> Checked
    ensures { result ≡ checked trace.now }
{
    let mut previous = entry::NONE;
    for (i, bytes) in trace.chunks(entry::BYTES).enumerate() {
        let judged = entry::judge(previous, bytes);
        if !judged.is_right() {
            return told_at(i + 1, judged);
        }
        previous = entry::mode_after(bytes);
    }
    yes()
}
