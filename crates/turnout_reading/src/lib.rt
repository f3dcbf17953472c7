// Turnout sub-packets read: everything is judged first, and stored afterwards, so that a refusal changes nothing. A turnout's speed tells where the
// turnout ends, so each walk goes from one to the next; a walk's counter has a name where only its invariant speaks of it.
#![tactic(auto)]

ghost use Rattle.std.specs.Prelude.{◌≡◌, ◌+◌, ◌*◌, ◌≤◌, ◌<◌, ◌^◌, length};
ghost use Rattle.std.proofs.lemmas.List.Edits.{sets};
ghost use Rattle.numbers.specs.Fields.{field};
ghost use Rattle.numbers.specs.Pieces.{total};
ghost use Rattle.framing.specs.Told.{told};
ghost use Rattle.profiles.specs.Profiles.{end_at, rules_refusal};
ghost use Rattle.profiles.specs.Reading.{first_entries, read_refusal, read_answer, read_into};
ghost use Rattle.profiles.specs.Places.{entry_at};
ghost use Rattle.turnouts.specs.Turnouts.{turnout_profile, turnout_bytes, speed_bits, behind_speed};
ghost use Rattle.turnout_reading.specs.Steps.{digits};

use framing::refusals;
use framing::refusals::Refusal;
use profiles::EntriesRead;

// The speed of the turnout at bit p.
fn speed_at(s: &[u8], p: usize) -> u32
    ensures { (result ≡ field s.now p speed_bits) × (result ≤ 31) }
{
    fields::read_field(s, p, turnouts::SPEED_BITS)
}

// Distance and release distance of the turnout at bit p as one number, which is 0 where its speed has none.
fn distances_at(s: &[u8], p: usize, speed: u32) -> u32
    requires { p ≤ 109 }
    ensures { (result ≡ field s.now (p + speed_bits) (total (behind_speed speed))) × (result < 2 ^ 27) }
{
    fields::read_field(s, p + turnouts::SPEED_BITS, turnouts::bits_behind(speed))
}

// The bit behind the turnout at bit p.
fn end_at(s: &[u8], p: usize) -> usize
    requires { p ≤ 109 }
    ensures { (result ≡ end_at turnout_profile s.now p) × (result ≤ p + 32) }
{
    p + turnouts::SPEED_BITS + turnouts::bits_behind(speed_at(s, p))
}

// The bit behind n turnouts from bit 13 on.
fn bits_of(s: &[u8], n: usize) -> usize
    requires { n ≤ 3 }
    ensures { (result ≡ entry_at turnout_profile s.now 13 n) × (result ≤ 109) }
{
    let mut p = turnouts::FIRST_TURNOUT_AT;
    for i in 0..n {
        p = end_at(s, p);
    }
    p
}

// Judges n turnouts from bit 13 on. At fault is a speed, with which a turnout starts.
fn judge_rules(s: &[u8], n: usize) -> Result<(), Refusal>
    requires { n ≤ 3 }
    ensures { told result ≡ rules_refusal turnout_profile 13 (first_entries turnout_profile s.now n) n }
{
    let mut p = turnouts::FIRST_TURNOUT_AT;
    for i in 0..n {
        if !turnouts::is_allowed(speed_at(s, p)) {
            return Err(Refusal::NotAllowed(p));
        }
        p = end_at(s, p);
    }
    Ok(())
}

// Judges a read into `room` bytes.
fn judge_read(s: &[u8], room: usize) -> Result<(), Refusal>
    ensures { told result ≡ read_refusal turnout_profile s.now room }
{
    let n = turnouts::count_of(s);
    let bits = bits_of(s, n) as u32;
    profiles::judge_shape(s, turnouts::TURNOUT_TYPE, bits)?;
    judge_rules(s, n)?;
    profiles::judge_end(s, bits, turnouts::TURNOUT_BYTES * n, room)
}

// Stores the 5 bytes of a turnout from byte `at` on.
fn fill_turnout(speed: u32, distances: u32, out: &mut [u8], at: usize)
    requires { (speed ≤ 31) × (distances < 2 ^ 27) × (at + turnout_bytes ≤ length out.old) }
    ensures { out.new ≡ sets out.old at (digits speed distances) }
{
    let distance = distances / turnouts::DISTANCE_WEIGHT;
    let release = distances % turnouts::DISTANCE_WEIGHT;
    out[at] = speed as u8;
    out[at + 1] = (distance / 256) as u8;
    out[at + 2] = (distance % 256) as u8;
    out[at + 3] = (release / 256) as u8;
    out[at + 4] = (release % 256) as u8;
}

// Stores the bytes of n turnouts from bit 13 on.
fn fill_turnouts(s: &[u8], n: usize, out: &mut [u8])
    requires { (n ≤ 3) × (turnout_bytes * n ≤ length out.old) }
    ensures { out.new ≡ sets out.old 0 (first_entries turnout_profile s.now n) }
{
    let mut p = turnouts::FIRST_TURNOUT_AT;
    for i in 0..n {
        let speed = speed_at(s, p);
        let distances = distances_at(s, p, speed);
        fill_turnout(speed, distances, out, turnouts::TURNOUT_BYTES * i);
        p = end_at(s, p);
    }
}

// Reads the turnout sub-packet that `s` begins with into `out`, 5 bytes for each turnout. What follows the sub-packet is ignored, and what lies
// behind the turnouts in `out` stays.
pub fn read_turnouts(s: &[u8], out: &mut [u8]) -> EntriesRead
    ensures value { result ≡ read_answer turnout_profile s.now out.old }
    ensures out_after { out.new ≡ read_into turnout_profile s.now out.old }
{
    match judge_read(s, out.len()) {
        Ok(_) => {
            let entries = turnouts::count_of(s);
            fill_turnouts(s, entries, out);
            EntriesRead {
                answer: refusals::ACCEPTED,
                place: refusals::NOWHERE,
                entries,
                bytes: framing::length_of(s),
            }
        }
        Err(refusal) => EntriesRead::from(refusal),
    }
}
