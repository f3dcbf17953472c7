// The turns of a listing: its first line, a line for each record that was run, its last line. Each is put at an offset of a lent output, where
// it fits.
#![tactic(auto)]

ghost use Rattle.std.specs.Prelude.{◌≡◌, ◌≤◌, length};
ghost use Rattle.lines.specs.Line.{room, IsLineOf};
ghost use Rattle.lines.specs.Text.{run_line, end_line};
ghost use Rattle.turns.specs.Placing.{put_at};
ghost use Rattle.turns.specs.Turns.{text_of, one_if_accepted, turn_of};

use lines::Line;
use records::told::Ran;

mod placing;

// What a turn tells: the bytes of its line, the bytes that the record used, 1 if it was accepted, and whether nothing is listed behind it.
// `accepted` is a number, since a listing adds it up.
#[derive(Clone, Copy)]
pub struct Turn {
    pub length: usize,
    pub used: usize,
    pub accepted: u64,
    pub last: bool,
}

fn line_of(ran: Ran) -> Line
    ensures { IsLineOf result (text_of ran) }
{
    lines::record_line(
        ran.number, ran.kind, ran.answer, ran.first, ran.second, ran.third,
    )
}

fn accepted_by(ran: Ran) -> u64
    ensures { result ≡ one_if_accepted ran }
{
    // what C gets of a record, so that its number says whether it was refused
    u64::from(ran.answer == 0)
}

// The first line.
pub fn begin(output: &mut [u8], at: usize) -> usize
    ensures value { (result ≡ length run_line) × (result ≤ room) }
    ensures output_after { output.new ≡ put_at output.old at run_line }
{
    placing::put(output, at, lines::run_line())
}

// The line of a record that was run.
pub fn take(ran: Ran, output: &mut [u8], at: usize) -> Turn
    ensures value { (result ≡ turn_of ran) × (result.length ≤ room) }
    ensures output_after { output.new ≡ put_at output.old at (text_of ran) }
{
    let length = placing::put(output, at, line_of(ran));
    Turn {
        length,
        used: ran.used as usize,
        accepted: accepted_by(ran),
        last: ran.kind == 0,
    }
}

// The last line.
pub fn end(output: &mut [u8], at: usize, lines: u64, accepted: u64) -> usize
    ensures value { (result ≡ length (end_line lines accepted)) × (result ≤ room) }
    ensures output_after { output.new ≡ put_at output.old at (end_line lines accepted) }
{
    placing::put(output, at, lines::end_line(lines, accepted))
}
