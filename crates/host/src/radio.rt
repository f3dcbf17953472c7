// What needs no session: a sub-packet's frame, gates and turnouts read and written, gates moved between their two forms, the age of a frame, the mode
// step by either engine, and a vendor's mode trace checked. Each is a function of its own, however alike, since C calls it by its name.
ghost use Rattle.std.specs.Prelude.{◌≡◌};
ghost use Rattle.clock.specs.Age.{frame_age};
ghost use Rattle.modes.specs.Next.{next_step};
ghost use Rattle.modes.specs.Plain.{plain_step};
ghost use Rattle.profiles.specs.Reading.{read_answer, read_into};
ghost use Rattle.profiles.specs.Writing.{write_answer, write_into};
ghost use Rattle.gates.specs.Gates.{gate_profile, most_gates};
ghost use Rattle.gates.specs.{declared.forms.Form.TheVariants.Old, declared.forms.Form.TheVariants.New};
ghost use Rattle.gate_moving.specs.Moving.{move_answer, move_into};
ghost use Rattle.traces.specs.Entry.{judged};
ghost use Rattle.traces.specs.Trace.{checked};
ghost use Rattle.turnouts.specs.Turnouts.{turnout_profile, most_turnouts};
ghost use Rattle.host.specs.Frame.{frame_answer};

use clock::FrameAge;
use framing::refusals;
use gate_moving::GatesMoved;
use gates::forms::Form;
use modes::Step;
use profiles::{EntriesRead, EntriesWritten};
use traces::entry::Judged;
use traces::walk::Checked;

// The refusal of the first sub-packet with its place, and where the sub-packet lies in the lent bytes: from their start on, or nowhere.
#[repr(C)]
#[derive(Clone, Copy)]
pub struct FrameAnswer {
    pub answer: u32,
    pub place: usize,
    pub offset: usize,
    pub length: usize,
}

#[tactic(auto, unfolding(crate::specs::Frame::frame_answer))]
#[unsafe(no_mangle)]
pub extern "C" fn kb_frame(bytes: &[u8]) -> FrameAnswer
    ensures { result ≡ frame_answer bytes.now }
{
    let (answer, place) = match framing::judge_frame(bytes) {
        Ok(_) => (refusals::ACCEPTED, refusals::NOWHERE),
        Err(refusal) => (refusal.number(), refusal.place()),
    };
    FrameAnswer {
        answer,
        place,
        offset: 0,
        length: framing::frame(bytes).len(),
    }
}

#[unsafe(no_mangle)]
pub extern "C" fn kb_read_gates(bytes: &[u8], gates: &mut [u8]) -> EntriesRead
    ensures value { result ≡ read_answer gate_profile bytes.now gates.old }
    ensures gates_after { gates.new ≡ read_into gate_profile bytes.now gates.old }
{
    gate_reading::read_gates(bytes, gates)
}

#[unsafe(no_mangle)]
pub extern "C" fn kb_write_gates(gates: &[u8], bytes: &mut [u8]) -> EntriesWritten
    ensures value { result ≡ write_answer gate_profile most_gates gates.now bytes.old }
    ensures bytes_after { bytes.new ≡ write_into gate_profile most_gates gates.now bytes.old }
{
    gate_writing::write_gates(gates, bytes)
}

// Gates of the old form, moved to the new one.
#[unsafe(no_mangle)]
pub extern "C" fn kb_gates_forward(bytes: &[u8], moved: &mut [u8]) -> GatesMoved
    ensures value { result ≡ move_answer Old bytes.now moved.old }
    ensures moved_after { moved.new ≡ move_into Old bytes.now moved.old }
{
    gate_moving::move_gates(Form::Old, bytes, moved)
}

// And of the new form, moved to the old one.
#[unsafe(no_mangle)]
pub extern "C" fn kb_gates_back(bytes: &[u8], moved: &mut [u8]) -> GatesMoved
    ensures value { result ≡ move_answer New bytes.now moved.old }
    ensures moved_after { moved.new ≡ move_into New bytes.now moved.old }
{
    gate_moving::move_gates(Form::New, bytes, moved)
}

#[unsafe(no_mangle)]
pub extern "C" fn kb_read_turnouts(bytes: &[u8], turnouts: &mut [u8]) -> EntriesRead
    ensures value { result ≡ read_answer turnout_profile bytes.now turnouts.old }
    ensures turnouts_after { turnouts.new ≡ read_into turnout_profile bytes.now turnouts.old }
{
    turnout_reading::read_turnouts(bytes, turnouts)
}

#[unsafe(no_mangle)]
pub extern "C" fn kb_write_turnouts(turnouts: &[u8], bytes: &mut [u8]) -> EntriesWritten
    ensures value { result ≡ write_answer turnout_profile most_turnouts turnouts.now bytes.old }
    ensures bytes_after { bytes.new ≡ write_into turnout_profile most_turnouts turnouts.now bytes.old }
{
    turnout_writing::write_turnouts(turnouts, bytes)
}

#[unsafe(no_mangle)]
pub extern "C" fn kb_frame_age(station: u32, onboard: u32) -> FrameAge
    ensures { result ≡ frame_age station onboard }
{
    clock::frame_age(station, onboard)
}

#[unsafe(no_mangle)]
pub extern "C" fn kb_next_mode(mode: u32, flags: &[u8]) -> Step
    ensures { result ≡ next_step mode flags.now }
{
    modes::next_mode(mode, flags)
}

// The same step by the plain engine.
#[unsafe(no_mangle)]
pub extern "C" fn kb_next_mode_plain(mode: u32, flags: &[u8]) -> Step
    ensures { result ≡ plain_step mode flags.now }
{
    modes::plain::next_mode(mode, flags)
}

#[unsafe(no_mangle)]
pub extern "C" fn kb_check_trace(trace: &[u8]) -> Checked
    ensures { result ≡ checked trace.now }
{
    traces::walk::check(trace)
}

// One entry of a trace, under the mode after of the entry before it.
#[unsafe(no_mangle)]
pub extern "C" fn kb_check_trace_entry(previous: u32, entry: &[u8]) -> Judged
    ensures { result ≡ judged previous entry.now }
{
    traces::entry::judge(previous, entry)
}
