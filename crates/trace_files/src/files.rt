// A trace that is checked in turns: more of it is read where less than an entry is held, and its first entry is judged.
ghost use Rattle.std.specs.Prelude.{◌≡◌, ◌<◌};
ghost use Rattle.trace_files.specs.Turns.{begun_file, most_entries, goes_on, stopped_at, judged_first, IsTurn, IsChecked};

use holding::Held;
use std::io::Read;
use traces::entry;
use traces::entry::Judged;

// The most entries of a file, so that every file comes to an end: a `u64` counts their bytes.
const MOST_ENTRIES: u64 = 194176253407468964;

// A trace between two turns: what is held of it, the entries that were right, and the mode after of the last of them, or none. It is over once nothing
// is left, or an entry is not right: then what is held begins with that one, judged so. `over` is a flag by itself: no other field has a meaning only
// where it is set, so an Option would have nothing to hold.
// That the entries are no more than the most is a clause where it is needed, and no ghost field: `right_on` of specs/Turns.antt counts one more
// whatever the file, and would have to hold a proof.
#[derive(Clone, Copy)]
pub(crate) struct File {
    pub held: Held,
    pub entries: u64,
    pub previous: u32,
    pub judged: Judged,
    pub over: bool,
}

impl File {
    // A file of which nothing is read yet.
    fn begun() -> File
        ensures { result ≡ begun_file }
    {
        File {
            held: Held::nothing(),
            entries: 0,
            previous: entry::NONE,
            judged: Judged::right(),
            over: false,
        }
    }

    // Does it go on? It stops where it is over, where nothing can be read, and behind the most entries.
    #[tactic(auto, unfolding(crate::specs::Turns::goes_on))]
    fn goes_on(self) -> bool
        ensures { result ≡ goes_on self }
    {
        !self.over && !self.held.failed && self.entries < MOST_ENTRIES
    }

    // The file where it stops: nothing is left, or the next entry is not right.
    fn stopped(self, held: Held, judged: Judged) -> File
        ensures { result ≡ stopped_at self held judged }
    {
        File {
            held,
            judged,
            over: !held.failed,
            ..self
        }
    }

    // The first entry of what is held is judged, unless there is none.
    #[tactic(auto, unfolding(crate::specs::Turns::judged_first))]
    fn judge_first(self, held: Held, first: &[u8]) -> File
        requires { self.entries < most_entries }
        ensures { result ≡ judged_first self held first.now }
    {
        if held.is_end(first) {
            return self.stopped(held, Judged::right());
        }
        let judged = entry::judge(self.previous, first);
        if !judged.is_right() {
            return self.stopped(held, judged);
        }
        File {
            held: held.behind(entry::BYTES),
            entries: self.entries + 1,
            previous: entry::mode_after(first),
            judged,
            over: false,
        }
    }

    // One turn.
    fn step<R: Read>(self, reader: &mut R, input: &mut [u8]) -> File
        requires { self.entries < most_entries }
        ensures { IsTurn self input.old input.new result }
    {
        let held = holding::ready(reader, input, self.held, entry::BYTES);
        self.judge_first(held, holding::part(input, held))
    }
}

// Judges entry after entry.
pub(crate) fn check_all<R: Read>(reader: &mut R, input: &mut [u8]) -> File
    ensures { IsChecked input.old input.new result }
{
    let mut file = File::begun();
    // no `for`: how many entries come is known only once they are read
    while file.goes_on() {
        file = file.step(reader, input);
    }
    file
}
