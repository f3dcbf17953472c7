// A recording lent whole, listed into a lent output.
ghost use Rattle.std.specs.Prelude.{◌≡◌, ◌≤◌, length};
ghost use Rattle.lines.specs.Line.{room};
ghost use Rattle.listing.specs.Listing.{listed_from, listing};
ghost use Rattle.turns.specs.Placing.{put_at};
ghost use Rattle.listing.specs.Whole.{number_of, listed_into, IsPutFrom};

use crate::runs;

// The grounds of refusal. The only one: the output is too small for the listing.
#[derive(Clone, Copy)]
pub enum Refused {
    OutputTooSmall,
}

impl Refused {
    // The number that is told of it.
    #[tactic(auto, unfolding(crate::specs::Whole::number_of))]
    pub fn number(self) -> u32
        ensures { result ≡ number_of self }
    {
        match self {
            Refused::OutputTooSmall => 1,
        }
    }
}

// The lines of the records from `from` on, and the last line, each put where it fits. Gives where they end.
fn put_records(recording: &[u8], session: &mut [u8], output: &mut [u8], from: usize) -> usize
    requires { from ≤ room }
    ensures { IsPutFrom (listed_from session.old recording.now 0 0) from output.old output.new result }
{
    let mut written = from;
    let mut at = 0;
    let mut lines: u64 = 0;
    let mut accepted: u64 = 0;
    // no `for`: each record tells where the next one starts
    while at < recording.len() {
        let turn = runs::next(session, &recording[at..], lines as u32, output, written);
        at += turn.used;
        written += turn.length;
        lines += 1;
        accepted += turn.accepted;
        if turn.last {
            break;
        }
    }
    written + turns::end(output, written, lines, accepted)
}

// The whole listing, put where it fits. Gives its length.
fn put_all(recording: &[u8], output: &mut [u8]) -> usize
    ensures { IsPutFrom (listing recording.now) 0 output.old output.new result }
{
    let mut session = runs::empty_session();
    let first = turns::begin(output, 0);
    put_records(recording, &mut session, output, first)
}

// The bytes of the listing, which is put only once it is known to fit, so that a refusal leaves the output as it was.
pub fn list(recording: &[u8], output: &mut [u8]) -> Result<usize, Refused>
    ensures value { result ≡ listed_into (length output.old) recording.now }
    ensures output_after { output.new ≡ put_at output.old 0 (listing recording.now) }
{
    let length = put_all(recording, &mut output[..0]);
    if output.len() < length {
        return Err(Refused::OutputTooSmall);
    }
    Ok(put_all(recording, output))
}
