// The lines of a listing as text: numbers in decimal, a space between them, a newline behind them. It knows numbers and words only.
#![tactic(auto)]

mod line;

ghost use Rattle.lines.specs.Line.{IsLineOf};
ghost use Rattle.lines.specs.Text.{run_line, record_line, end_line};

pub use line::{Line, ROOM};

// The first line of a listing.
pub fn run_line() -> Line
    ensures { IsLineOf result run_line }
{
    Line::empty().with_words(b"run\n")
}

// The line of a record.
pub fn record_line(number: u64, kind: u32, answer: u32, first: u32, second: u32, third: u32) -> Line
    ensures { IsLineOf result (record_line number kind answer first second third) }
{
    Line::empty()
        .with_number(number)
        .with_next(u64::from(kind))
        .with_next(u64::from(answer))
        .with_next(u64::from(first))
        .with_next(u64::from(second))
        .with_next(u64::from(third))
        .with_byte(line::NEWLINE)
}

// The last line of a listing: record lines printed, records accepted.
pub fn end_line(lines: u64, accepted: u64) -> Line
    ensures { IsLineOf result (end_line lines accepted) }
{
    Line::empty()
        .with_words(b"end")
        .with_next(lines)
        .with_next(accepted)
        .with_byte(line::NEWLINE)
}
