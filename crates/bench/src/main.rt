// Plays a recording: reads it from standard input, runs its records on one session and writes the listing to standard output.
#![tactic(auto)]

ghost use Rattle.std.specs.Prelude.{◌≡◌, ◌+◌, ◌≤◌, length};
ghost use Rattle.lines.specs.Line.{room};
ghost use Rattle.lines.specs.Text.{run_line};
ghost use Rattle.recording.specs.Recorded.{empty_session};
ghost use Rattle.turns.specs.Placing.{put_at};
ghost use Rattle.bench.specs.Playing.{bytes, begun_play, goes_on, stopped_at, CanGoOn, RunsFirst, IsTurn, IsPlayed, IsEnded, IsListed};

use holding::Held;
use listing::runs;
use pending::Pending;
use records::form::LONGEST;
use std::io::{Read, Write};

mod pending;

// A play between two records. It is over once its last record is listed.
// `over` is a flag by itself: no other field has a meaning only where it is set, so an Option would have nothing to hold.
#[derive(Clone, Copy)]
struct Play {
    held: Held,
    pending: Pending,
    lines: u64,
    accepted: u64,
    over: bool,
}

impl Play {
    // A play before its first record.
    fn begun(output: &mut [u8]) -> Play
        ensures value { result ≡ begun_play }
        ensures output_after { output.new ≡ put_at output.old 0 run_line }
    {
        let length = turns::begin(output, 0);
        Play {
            held: Held::nothing(),
            pending: Pending::nothing().with(length),
            lines: 0,
            accepted: 0,
            over: false,
        }
    }

    // Does it go on? It stops where it is over, and where nothing can be read or written.
    #[tactic(auto, unfolding(crate::specs::Playing::goes_on))]
    fn goes_on(self) -> bool
        ensures { result ≡ goes_on self }
    {
        !self.over && !self.held.failed && self.pending.writable
    }

    // The same play where no record is run.
    fn stopped(self, held: Held, pending: Pending) -> Play
        ensures { result ≡ stopped_at self held pending }
    {
        Play {
            held,
            pending,
            over: !held.failed,
            ..self
        }
    }

    // The first record of what is held is run, and its line put. The play stops where nothing is left or nothing can be read.
    fn run_first(
        self,
        held: Held,
        pending: Pending,
        first: &[u8],
        session: &mut [u8],
        output: &mut [u8],
    ) -> Play
        requires { CanGoOn self × (pending.filled + room ≤ length output.old) }
        ensures { RunsFirst self held pending first.now session.old output.old session.new
            output.new result }
    {
        if held.is_end(first) {
            return self.stopped(held, pending);
        }
        let turn = runs::next(session, first, self.lines as u32, output, pending.filled);
        Play {
            held: held.behind(turn.used),
            pending: pending.with(turn.length),
            lines: self.lines + 1,
            accepted: self.accepted + turn.accepted,
            over: turn.last,
        }
    }

    // One turn: more of the recording is read where too little is held, and what is pending is written where a line has no room.
    // The session and both buffers are lent one by one: a struct of them is no plainer, since each clause would have to say which of them stay.
    fn step<R: Read, W: Write>(
        self,
        reader: &mut R,
        out: &mut W,
        session: &mut [u8],
        input: &mut [u8],
        output: &mut [u8],
    ) -> Play
        requires { CanGoOn self × (room ≤ length output.old) }
        ensures { IsTurn self (bytes session.old input.old output.old)
            (bytes session.new input.new output.new) result }
    {
        let held = holding::ready(reader, input, self.held, LONGEST);
        let pending = self.pending.with_room(out, output);
        self.run_first(held, pending, holding::part(input, held), session, output)
    }

    // The last line, where the recording is over.
    fn with_end<W: Write>(self, out: &mut W, output: &mut [u8]) -> Pending
        requires { room ≤ length output.old }
        ensures { IsEnded self output.old output.new result }
    {
        if !self.over {
            return self.pending;
        }
        let pending = self.pending.with_room(out, output);
        pending.with(turns::end(output, pending.filled, self.lines, self.accepted))
    }

    // Writes the rest of the listing. One that lacks its last line is said to.
    fn finish<W: Write>(self, rt: &impl Eprint, out: &mut W, output: &[u8]) {
        let last = self.pending.written(out, output);
        if self.held.failed {
            let _ = eprintln!(rt; "bench: the recording cannot be read");
        }
        if !last.writable {
            let _ = eprintln!(rt; "bench: the listing cannot be written");
        }
    }
}

// Plays record after record. Behind the most records that a recording can have, another one is none, and the play is over.
fn played<R: Read, W: Write>(
    reader: &mut R,
    out: &mut W,
    session: &mut [u8],
    input: &mut [u8],
    output: &mut [u8],
) -> Play
    requires { room ≤ length output.old }
    ensures { IsPlayed (bytes session.old input.old (put_at output.old 0 run_line))
        (bytes session.new input.new output.new) result }
{
    let mut play = Play::begun(output);
    // no `for`: how many records come is known only once they are read
    while play.goes_on() {
        play = play.step(reader, out, session, input, output);
    }
    play
}

// The whole listing, but for what is still pending.
fn listed<R: Read, W: Write>(
    reader: &mut R,
    out: &mut W,
    session: &mut [u8],
    input: &mut [u8],
    output: &mut [u8],
) -> Play
    requires { (session.old ≡ empty_session) × (room ≤ length output.old) }
    ensures { IsListed (bytes session.old input.old (put_at output.old 0 run_line)) output.new result }
{
    let play = played(reader, out, session, input, output);
    Play {
        pending: play.with_end(out, output),
        ..play
    }
}

fn main(rt: HostRuntime) {
    let mut out = rt.stdout();
    let mut session = runs::empty_session();
    let mut input = io::large_buffer();
    let mut output = io::large_buffer();
    let play = listed(
        &mut rt.stdin(),
        &mut out,
        &mut session,
        &mut input,
        &mut output,
    );
    play.finish(&rt, &mut out, &output);
}
