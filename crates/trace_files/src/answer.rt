// The line that tells a trace's answer; of a refusal its beginning, since what stands behind that says why, in words.
ghost use Rattle.std.specs.Prelude.{◌≡◌, ◌≤◌};
ghost use Rattle.lines.specs.Line.{with_text};
ghost use Rattle.trace_files.specs.Turns.{most_entries};
ghost use Rattle.trace_files.specs.Answer.{name_of, mode_text, yes_text, which_text, wrong_text, refused_text, found_in, answer_text, written};

use crate::files::File;
use lines::Line;
use traces::entry;
use traces::entry::Judged;
use transitions::names;

// The names of the modes, from 1 on.
const NAMES: [[u8; 2]; 13] = [
    *b"SB", *b"SR", *b"LS", *b"FS", *b"OV", *b"OS", *b"TR", *b"PT", *b"RV", *b"SH", *b"NL", *b"SF",
    *b"IS",
];

// A mode's name behind a line; what is no mode has none.
fn with_name(line: Line, mode: u32) -> Line
    ensures { result ≡ with_text line (name_of mode) }
{
    if !names::is_mode(mode) {
        return line;
    }
    let name = NAMES[mode as usize - 1];
    line.with_words(&name)
}

// A mode's number, and its name behind it.
fn with_mode(line: Line, mode: u32) -> Line
    ensures { result ≡ with_text line (mode_text mode) }
{
    with_name(line.with_number(u64::from(mode)).with_words(b" ("), mode).with_words(b")")
}

fn yes_line(entries: u64) -> Line
    ensures { result ≡ written (yes_text entries) }
{
    Line::empty()
        .with_words(b"yes ")
        .with_number(entries)
        .with_words(b"\n")
}

// Which of an entry's modes is wrong, by the code that the C interface tells it with (`Judged`, a C struct).
fn with_which(line: Line, which: u32) -> Line
    ensures { result ≡ with_text line (which_text which) }
{
    if which == entry::BEFORE {
        return line.with_words(b": mode before: due ");
    }
    line.with_words(b": mode after: due ")
}

// An entry with another mode than the one due.
fn wrong_line(number: u64, which: u32, due: u32, found: u32) -> Line
    ensures { result ≡ written (wrong_text number which due found) }
{
    let head = Line::empty().with_words(b"entry ").with_number(number);
    let told = with_mode(with_which(head, which), due);
    with_mode(told.with_words(b", not "), found).with_words(b"\n")
}

fn refused_line(number: u64, answer: u32) -> Line
    ensures { result ≡ written (refused_text number answer) }
{
    Line::empty()
        .with_words(b"entry ")
        .with_number(number)
        .with_words(b" is refused: answer ")
        .with_number(u64::from(answer))
        .with_words(b": ")
}

// The mode that stands in an entry in place of the one due.
fn found(which: u32, first: &[u8]) -> u32
    ensures { result ≡ found_in which first.now }
{
    if which == entry::BEFORE {
        return entry::mode_before(first);
    }
    entry::mode_after(first)
}

// The line of a trace that is over; `first` is what was held last, and begins with the entry that is not right.
pub(crate) fn line(file: File, first: &[u8]) -> Line
    requires { file.entries ≤ most_entries }
    ensures { result ≡ written (answer_text file first.now) }
{
    if file.judged.is_right() {
        return yes_line(file.entries);
    }
    let number = file.entries + 1;
    let Judged { answer, wrong, due } = file.judged;
    if answer != 0 {
        return refused_line(number, answer);
    }
    wrong_line(number, wrong, due, found(wrong, first))
}
