// What a vendor and the calling script are told of a trace that was checked: its answer on standard output, what stopped the check on standard error,
// and the outcome on a descriptor of its own. Why an entry is refused is put in pieces, each text and each number by a write of its own: an output with too
// little room for all of it, such as a pipe that does not block and is nearly full, then gets as many as fit.
ghost use Rattle.std.specs.Prelude.{◌≡◌, ◌≤◌};
ghost use Rattle.trace_files.specs.Turns.{most_entries};
ghost use Rattle.trace_files.specs.Reasons.{bad_flag};
ghost use Rattle.trace_files.specs.Outcome.{outcome_of};

use crate::answer;
use crate::files::File;
use crate::outcome::Outcome;
use lines::ROOM;
use std::io::Result;
use traces::entry;
use transitions::names;

// Where the outcome is told, as a digit. std has no handle for this descriptor, so the kit's `io` writes it.
const OUTCOME_FILENO: i32 = 3;

// An entry that is none, which would begin at this byte of the trace.
fn put_form(rt: &impl Print, byte: u64, first: &[u8]) -> Result<()> {
    if first.len() < entry::BYTES {
        let length = first.len();
        print!(rt; "the trace ends within it, after ")?;
        print!(rt; "{length}")?;
        return print!(rt; " of its 95 bytes; give the whole trace, and nothing behind it");
    }
    print!(rt; "the mark 4B 56 does not stand at byte ")?;
    print!(rt; "{byte}")?;
    print!(rt; ", where it begins; see whether each entry before it has 95 bytes")
}

// Where the first flag stands that is neither 0 nor 1; where there is none, behind the flags.
fn bad_flag(first: &[u8]) -> usize
    ensures { result ≡ bad_flag first.now }
{
    for at in entry::FLAGS..entry::MODE_AFTER {
        if 1 < numbers::byte_at(first, at) {
            return at;
        }
    }
    entry::MODE_AFTER
}

fn put_no_mode(rt: &impl Print, which: &str, mode: u32) -> Result<()> {
    print!(rt; "its mode {which} is ")?;
    print!(rt; "{mode}")?;
    print!(rt; ", which is no mode; modes are 1 to 13")
}

// What is out of range in an entry: the first that is.
fn put_range(rt: &impl Print, first: &[u8]) -> Result<()> {
    let before = entry::mode_before(first);
    if !names::is_mode(before) {
        return put_no_mode(rt, "before", before);
    }
    let at = bad_flag(first);
    if at == entry::MODE_AFTER {
        return put_no_mode(rt, "after", entry::mode_after(first));
    }
    let condition = at - entry::FLAGS + 1;
    let flag = numbers::byte_at(first, at);
    print!(rt; "its flag of condition ")?;
    print!(rt; "{condition}")?;
    print!(rt; " is ")?;
    print!(rt; "{flag}")?;
    print!(rt; "; a flag is 0 or 1")
}

// Why an entry is refused, and what to look at. `Judged` is what C gets of an entry, so that its number says why.
fn put_reason(rt: &impl Print, file: File, first: &[u8]) -> Result<()>
    requires { file.entries ≤ most_entries }
{
    if file.judged.answer == entry::BAD_ENTRY {
        return put_form(rt, entry::BYTES as u64 * file.entries, first);
    }
    put_range(rt, first)
}

// The answer; `first` is what was held last.
fn put_answer(rt: &impl Print, file: File, first: &[u8]) -> Result<()>
    requires { file.entries ≤ most_entries }
{
    let line = answer::line(file, first);
    let bytes = line.bytes;
    rt.write_all(&bytes[..line.len.min(ROOM)])?;
    // 0 is the number of an entry that is not refused, as C gets it
    if file.judged.answer == 0 {
        return Ok(());
    }
    put_reason(rt, file, first)?;
    println!(rt)
}

// Says what stopped the check, if anything did, and gives the outcome.
#[tactic(auto, unfolding(crate::specs::Outcome::outcome_of))]
fn outcome(rt: &impl Eprint, file: File, told: bool) -> Outcome
    ensures { result ≡ outcome_of file told }
{
    if file.held.failed {
        let _ = eprintln!(rt;
            "bench: the trace cannot be read to its end; see whether it is a file, and its disk is sound"
        );
        return Outcome::NotDone;
    }
    if !file.over {
        let _ = eprintln!(rt;
            "bench: 194,176,253,407,468,964 entries are right, the most at a time; check what stands behind them by itself"
        );
        return Outcome::NotDone;
    }
    if !told {
        let _ = eprintln!(rt;
            "bench: the answer cannot be written; see whether there is room, and whether the output is still read"
        );
        return Outcome::NotDone;
    }
    if file.judged.is_right() {
        return Outcome::Right;
    }
    Outcome::NotRight
}

// Where the trace could not be checked to its answer, there is none.
pub(crate) fn finish(rt: &(impl Print + Eprint), file: File, first: &[u8])
    requires { file.entries ≤ most_entries }
{
    let told = file.over && put_answer(rt, file, first).is_ok();
    io::print_decimal(OUTCOME_FILENO, outcome(rt, file, told).digit());
}
