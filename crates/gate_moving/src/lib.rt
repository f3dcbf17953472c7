// Gates moved from one form of sub-packet to the other: they are read, their distances are said in the other form, and they are written. Everything
// is judged first, so that a refusal changes nothing. In between each gate is kept as the number that its bits are. `from` is the form that is read.
#![tactic(auto)]

mod distances;

ghost use Rattle.std.specs.Prelude.{◌≡◌, ◌≤◌, length, IfOk};
ghost use Rattle.numbers.specs.Pieces.{times, pack};
ghost use Rattle.framing.specs.Told.{ground_of, told};
ghost use Rattle.profiles.specs.Profiles.{count_of};
ghost use Rattle.gates.specs.Gates.{gate_widths};
ghost use Rattle.gates.specs.Forms.{layout_of, other_form, profile_in};
ghost use Rattle.gate_reading.specs.Steps.{digits, spread, HoldsGates};
ghost use Rattle.gate_moving.specs.Moving.{restated, packet_refusal, move_refusal, not_moved, move_answer, move_into};

use framing::refusals;
use framing::refusals::Refusal;
use gates::forms::Form;

// What a move answers: 0 with the gates, the bytes of the sub-packet that was read and of the one that was written, or a refusal's number and place
// with zeros. The place is counted in the sub-packet that was read. C reads it, so that numbers stand here and no `Result`.
#[repr(C)]
#[derive(Clone, Copy)]
pub struct GatesMoved {
    pub answer: u32,
    pub place: usize,
    pub gates: usize,
    pub used: usize,
    pub written: usize,
}

// The answer of a move that is refused.
impl From<Refusal> for GatesMoved {
    ghost from_gives = { λ refusal answer. answer ≡ not_moved (ground_of refusal) };

    fn from(refusal: Refusal) -> GatesMoved {
        GatesMoved {
            answer: refusal.number(),
            place: refusal.place(),
            gates: 0,
            used: 0,
            written: 0,
        }
    }
}

// Judges a sub-packet by itself, whatever becomes of it. Its gates are kept where nothing refuses it.
fn judge_packet(
    form: Form,
    s: &[u8],
    kept: &mut [u64; gate_reading::MOST_COUNTED],
) -> Result<(), Refusal>
    ensures value { told result ≡ packet_refusal form s.now }
    ensures holds_gates { IfOk result (λ _. HoldsGates form s.now kept.new) }
{
    let count = gates::count_of(s);
    let bits = gates::bits_of(form.layout().distance, count as u32) as u32;
    profiles::judge_shape(s, gates::GATE_TYPE, bits)?;
    gate_reading::keep_gates(form, s, kept);
    gate_reading::judge_kept(form, s, kept)?;
    let outside = gates::GATE_BYTES * count;
    profiles::judge_end(s, bits, outside, outside)
}

// Keeps the gates that are to be moved, and answers how many they are, or why they cannot be moved into `room` bytes. Too many come with the header,
// before any gate is judged.
fn take_gates(
    from: Form,
    s: &[u8],
    kept: &mut [u64; gate_reading::MOST_COUNTED],
    room: usize,
) -> Result<usize, Refusal>
    ensures value { told result ≡ move_refusal from s.now room }
    ensures count { IfOk result (λ n. (n ≡ count_of (profile_in from) s.now) × (n ≤ 31)) }
    ensures holds_gates { IfOk result (λ _. HoldsGates from s.now kept.new) }
{
    framing::judge_head(s, gates::GATE_TYPE, gates::GATE_TYPE)?;
    let count = gates::count_of(s);
    let to = from.other().layout();
    if to.most < count {
        return Err(Refusal::TooManyToMove);
    }
    judge_packet(from, s, kept)?;
    let bits = gates::bits_of(to.distance, count as u32) as u32;
    distances::judge(from, &kept[..count])?;
    profiles::judge_room(profiles::bytes_for(bits), room)?;
    Ok(count)
}

// Puts a gate that was kept from bit p on, in the other form.
fn put_gate(from: Form, gate: u64, out: &mut [u8], p: usize)
    ensures { out.new ≡ pack out.old p (gate_widths (layout_of (other_form from)).distance) (restated from (digits gate) 1) }
{
    let bits = gates::gate_bits(from.other().layout().distance);
    fields::write_wide(out, p, bits, distances::restated(from, gate));
}

// Puts gates that were kept from bit 16 on, in the other form.
fn put_gates(from: Form, kept: &[u64], out: &mut [u8])
    requires { length kept.now ≤ 31 }
    ensures { out.new ≡ pack out.old 16 (times (length kept.now) (gate_widths (layout_of (other_form from)).distance)) (restated from (spread kept.now) (length kept.now)) }
{
    let bits = gates::gate_bits(from.other().layout().distance);
    let mut p = 16;
    for gate in kept {
        put_gate(from, *gate, out, p);
        p += bits;
    }
}

// Moves the gate sub-packet that `s` begins with to the start of `out`. What follows it in `s` is ignored, and what lies behind in `out` stays.
pub fn move_gates(from: Form, s: &[u8], out: &mut [u8]) -> GatesMoved
    ensures value { result ≡ move_answer from s.now out.old }
    ensures out_after { out.new ≡ move_into from s.now out.old }
{
    let mut kept = [0u64; gate_reading::MOST_COUNTED];
    let count = match take_gates(from, s, &mut kept, out.len()) {
        Ok(count) => count,
        Err(refusal) => return GatesMoved::from(refusal),
    };
    let written = gates::put_header(out, from.other().layout().distance, count as u32);
    put_gates(from, &kept[..count], out);
    GatesMoved {
        answer: refusals::ACCEPTED,
        place: refusals::NOWHERE,
        gates: count,
        used: framing::length_of(s),
        written,
    }
}
