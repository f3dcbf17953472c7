// A file of gate sub-packets that is moved in turns: more of it is read, its first sub-packet is moved, and what came of it is written. `from` is the
// form that is read.
ghost use Rattle.std.specs.Prelude.{◌≡◌, true, take};
ghost use Rattle.std.specs.Io.KnownBytes.{Appends};
ghost use Rattle.gate_files.specs.Files.{blank};
ghost use Rattle.gate_files.specs.Turns.{begun_file, goes_on, stopped_at, with_written, CanGoOn, MovesFirst, IsTurn, IsMoved};

use framing::refusals;
use gates::forms::Form;
use holding::Held;
use std::io::{Read, Write};

// The bytes of the longest sub-packet that a header can tell, of either form.
const LONGEST: usize = 127;

// The most sub-packets of a file, so that every file comes to an end.
const MOST_PACKETS: u32 = 4294967295;

// Why a sub-packet is refused: the number that the move answers, and the place in the sub-packet. They are what a person is told, and the move
// answers them by themselves (`GatesMoved`, a C struct).
#[derive(Clone, Copy)]
pub(crate) struct Refused {
    pub number: u32,
    pub place: usize,
}

// A file between two turns: what is held of it, the sub-packets that were moved, their bytes in the file, and the bytes that the last turn made. It is
// over once nothing is left or a sub-packet is refused, and writable until a write fails.
// Two flags stand here, and no enum: what may not change, `with_written` of specs/Turns.antt, sets the one whatever the other is.
#[derive(Clone, Copy)]
pub(crate) struct File {
    pub held: Held,
    pub packets: u32,
    pub used: u64,
    pub made: usize,
    pub refused: Option<Refused>,
    pub over: bool,
    pub writable: bool,
}

impl File {
    // A file of which nothing is read yet.
    fn begun() -> File
        ensures { result ≡ begun_file }
    {
        File {
            held: Held::nothing(),
            packets: 0,
            used: 0,
            made: 0,
            refused: None,
            over: false,
            writable: true,
        }
    }

    // Does it go on? It stops where it is over, where nothing can be read or written, and behind the most sub-packets.
    #[tactic(auto, unfolding(crate::specs::Turns::goes_on))]
    fn goes_on(self) -> bool
        ensures { result ≡ goes_on self }
    {
        !self.over && !self.held.failed && self.writable && self.packets < MOST_PACKETS
    }

    // The same file where no sub-packet is moved.
    fn stopped(self, held: Held, refused: Option<Refused>) -> File
        ensures { result ≡ stopped_at self held refused }
    {
        File {
            held,
            made: 0,
            refused,
            over: !held.failed,
            ..self
        }
    }

    // The first sub-packet of what is held is moved into `out`, unless there is none.
    fn move_first(self, from: Form, held: Held, first: &[u8], out: &mut [u8]) -> File
        requires { CanGoOn self × (out.old ≡ blank) }
        ensures { MovesFirst from self held first.now out.new result }
    {
        if held.is_end(first) {
            return self.stopped(held, None);
        }
        let moved = gate_moving::move_gates(from, first, out);
        // what C gets of a move, so that its number says whether it is refused
        if moved.answer != refusals::ACCEPTED {
            let refused = Refused {
                number: moved.answer,
                place: moved.place,
            };
            return self.stopped(held, Some(refused));
        }
        File {
            held: held.behind(moved.used),
            packets: self.packets + 1,
            used: self.used + moved.used as u64,
            made: moved.written,
            refused: None,
            over: false,
            ..self
        }
    }

    // One turn, but for the writing: more of the file is read where too little is held, and its first sub-packet is moved.
    fn step<R: Read>(self, reader: &mut R, from: Form, input: &mut [u8], out: &mut [u8]) -> File
        requires { CanGoOn self × (out.old ≡ blank) }
        ensures { IsTurn from self input.old input.new out.new result }
    {
        let held = holding::ready(reader, input, self.held, LONGEST);
        self.move_first(from, held, holding::part(input, held), out)
    }

    // Writes what a turn made.
    fn written<W: Write>(self, writer: &mut W, out: &[u8]) -> File
        ensures value { result ≡ with_written result.writable self }
        ensures bytes { result.writable ≡ true → Appends (W.contents writer.old) (W.contents writer.new) (take self.made out.now) }
    {
        let made = self.made.min(out.len());
        File {
            writable: writer.write_all(&out[..made]).is_ok(),
            ..self
        }
    }
}

// Moves sub-packet after sub-packet.
pub(crate) fn move_all<R: Read, W: Write>(
    reader: &mut R,
    writer: &mut W,
    from: Form,
    input: &mut [u8],
) -> File
    ensures { IsMoved from input.old input.new result }
{
    let mut file = File::begun();
    // no `for`: how many sub-packets come is known only once they are read
    while file.goes_on() {
        let mut out = [0u8; LONGEST];
        let made = file.step(reader, from, input, &mut out);
        file = made.written(writer, &out);
    }
    file
}
