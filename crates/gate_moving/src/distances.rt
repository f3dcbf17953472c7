// The distances of gates that are kept as the number that their bits are, judged and restated for the other form.
ghost use Rattle.std.specs.Prelude.{◌≡◌, ◌+◌, ◌*◌, ◌%◌, ◌≤◌, length};
ghost use Rattle.framing.specs.Told.{told};
ghost use Rattle.gate_reading.specs.Steps.{digits, spread};
ghost use Rattle.gate_moving.specs.Moving.{metres_of, distance_refusal, distances_refusal, restated_distance};

use framing::refusals::Refusal;
use gates::forms::Form;

// The metres that a gate's distance means.
fn metres_of(form: Form, gate: u64) -> u32
    ensures { (result ≡ metres_of form (digits gate)) × (result ≤ 655350) }
{
    (gate / gates::DISTANCE_WEIGHT % 65536) as u32 * form.layout().unit
}

// Judges a distance that starts at bit p and is to be said in the form `to`.
fn judge_distance(to: Form, p: usize, metres: u32) -> Result<(), Refusal>
    ensures { told result ≡ distance_refusal to p metres }
{
    let layout = to.layout();
    if 0 < metres % layout.unit {
        return Err(Refusal::DistanceStuck(p));
    }
    if layout.farthest < metres {
        return Err(Refusal::DistanceStuck(p));
    }
    Ok(())
}

// Judges the distances of gates that were kept, of which the first stands at bit 16.
pub(crate) fn judge(from: Form, kept: &[u64]) -> Result<(), Refusal>
    requires { length kept.now ≤ 31 }
    ensures { told result ≡ distances_refusal from 16 (spread kept.now) (length kept.now) }
{
    let bits = gates::gate_bits(from.layout().distance);
    let mut p = 16;
    for gate in kept {
        judge_distance(from.other(), p, metres_of(from, *gate))?;
        p += bits;
    }
    Ok(())
}

// A gate with its distance said in the other form, as two bytes hold it.
pub(crate) fn restated(from: Form, gate: u64) -> u64
    ensures { result ≡ restated_distance from (digits gate) % 65536 * 1048576 + gate % 1048576 }
{
    let distance = metres_of(from, gate) / from.other().layout().unit % 65536;
    u64::from(distance) * gates::DISTANCE_WEIGHT + gate % gates::DISTANCE_WEIGHT
}
