// Turnouts written as a sub-packet: what the writer of any profile asks of a turnout.
#![tactic(auto)]

ghost use Rattle.std.specs.Prelude.{◌≡◌, ◌+◌, ◌*◌, ◌≤◌, length, refl};
ghost use Rattle.std.proofs.Common.{lit≤};
ghost use Rattle.profiles.specs.Writing.{bits_for, entry_refusal, write_answer, write_into};
ghost use Rattle.profiles.specs.Numbered.{IsNumberOf};
ghost use Rattle.framing.specs.Told.{told};
ghost use Rattle.turnouts.specs.Turnouts.{turnout_profile, turnout_bytes, most_turnouts};
ghost use Rattle.turnouts.proofs.TurnoutLaws.{regular};

use framing::refusals;
use framing::refusals::Refusal;
use profiles::arrays::Entry;
use profiles::{EntriesWritten, arrays};
use turnouts::TURNOUT_BYTES;

#[cfg(test)]
mod tests;

// What the type and one byte of the length weigh in the number that the header is. The count is the lowest, and weighs 1.
const TYPE_WEIGHT: u32 = 512;

const LENGTH_WEIGHT: u32 = 4;

// What a speed weighs in the number that a turnout with distances is.
const SPEED_WEIGHT: u64 = 134217728;

// Judges a turnout. A distance that its speed does not have must be zero.
fn judge_turnout(turnout: &[u8]) -> Result<(), Refusal>
    ensures { told result ≡ entry_refusal turnout_profile turnout.now }
{
    let speed = numbers::byte_at(turnout, 0);
    if !turnouts::is_allowed(speed) {
        return Err(Refusal::NotAllowed(refusals::NOWHERE));
    }
    if turnouts::last_distance(speed) < numbers::half_at(turnout, 1) {
        return Err(Refusal::TooWide);
    }
    if turnouts::last_release(speed) < numbers::half_at(turnout, 3) {
        return Err(Refusal::TooWide);
    }
    Ok(())
}

// A turnout as one number: its speed, and behind it distance and release distance, where the speed has them.
fn number_of(turnout: &[u8]) -> u64
    requires { turnout_bytes ≤ length turnout.now }
    ensures { IsNumberOf turnout_profile turnout.now result }
{
    let speed = numbers::byte_at(turnout, 0);
    if !turnouts::is_restricted(speed) {
        return u64::from(speed);
    }
    let distance = numbers::half_at(turnout, 1) % 32768;
    let release = numbers::half_at(turnout, 3) % turnouts::DISTANCE_WEIGHT;
    let distances = distance * turnouts::DISTANCE_WEIGHT + release;
    u64::from(speed) * SPEED_WEIGHT + u64::from(distances)
}

// The bits of a sub-packet of the first n turnouts of a list before its padding.
fn bits_for(list: &[u8], n: u8) -> u32
    ensures { (result ≡ bits_for turnout_profile list.now n) × (result ≤ 13 + 32 * n) }
{
    let mut bits = turnouts::FIRST_TURNOUT_AT;
    for i in 0..usize::from(n) {
        let speed = numbers::byte_at(list, TURNOUT_BYTES * i);
        bits += turnouts::SPEED_BITS + turnouts::bits_behind(speed);
    }
    bits as u32
}

struct Turnout;

impl Entry<TURNOUT_BYTES> for Turnout {
    const MOST: usize = 3;

    const FIRST_AT: usize = turnouts::FIRST_TURNOUT_AT;

    ghost MOST = { most_turnouts };

    ghost FIRST_AT = { 13 };

    ghost profile = { turnout_profile };

    fn judge(entry: &[u8; TURNOUT_BYTES]) -> Result<(), Refusal> {
        judge_turnout(entry)
    }

    fn size(list: &[u8], n: u8) -> usize {
        profiles::bytes_for(bits_for(list, n))
    }

    // Length and count are cut to their bits.
    fn begin(out: &mut [u8], list: &[u8], n: u8) -> usize {
        let bytes = profiles::bytes_for(bits_for(list, n));
        numbers::put_byte(out, bytes - 1, 0);
        let length = (bytes % 128) as u32;
        let count = (n % 4) as u32;
        let head = turnouts::TURNOUT_TYPE * TYPE_WEIGHT + length * LENGTH_WEIGHT + count;
        fields::write_field(out, 0, turnouts::FIRST_TURNOUT_AT, head);
        bytes
    }

    fn put(out: &mut [u8], p: usize, entry: &[u8; TURNOUT_BYTES]) -> usize {
        let speed = u32::from(entry[0]);
        let bits = turnouts::SPEED_BITS + turnouts::bits_behind(speed);
        fields::write_wide(out, p, bits, number_of(entry));
        bits
    }

    ghost regular = { regular };

    ghost bytes_are = { refl };

    ghost first_is = { refl };

    ghost few_entries = { lit≤ tt };

    ghost starts_low = { lit≤ tt };
}

// Writes the turnouts of `list`, 5 bytes for each, as a sub-packet from the start of `out`. What lies behind it in `out` stays.
pub fn write_turnouts(list: &[u8], out: &mut [u8]) -> EntriesWritten
    ensures value { result ≡ write_answer turnout_profile most_turnouts list.now out.old }
    ensures out_after { out.new ≡ write_into turnout_profile most_turnouts list.now out.old }
{
    arrays::write::<TURNOUT_BYTES, Turnout>(list, out)
}
