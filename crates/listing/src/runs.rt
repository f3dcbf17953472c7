// The records of a recording run one after another from an empty session, each with its line.
ghost use Rattle.std.specs.Prelude.{◌≡◌, ◌≤◌};
ghost use Rattle.lines.specs.Line.{room};
ghost use Rattle.turns.specs.Placing.{put_at};
ghost use Rattle.turns.specs.Turns.{text_of, turn_of};
ghost use Rattle.recording.specs.Recorded.{empty_session};
ghost use Rattle.recording.specs.Running.{ran_record, bytes_after_record};

use recording::running;
use store::layout;
use turns::Turn;

// The session that a listing starts from.
pub fn empty_session() -> [u8; layout::SESSION]
    ensures { result ≡ empty_session }
{
    [0; layout::SESSION]
}

// The next record is run, where `before` came before it, and its line is put.
pub fn next(session: &mut [u8], held: &[u8], before: u32, output: &mut [u8], at: usize) -> Turn
    ensures value { (result ≡ turn_of (ran_record session.old held.now before)) × (result.length ≤ room) }
    ensures session_after { session.new ≡ bytes_after_record session.old held.now before }
    ensures output_after { output.new ≡ put_at output.old at (text_of (ran_record session.old held.now before)) }
{
    turns::take(running::run(session, held, before), output, at)
}
