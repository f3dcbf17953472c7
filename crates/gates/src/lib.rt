// What reading and writing gates share: the bits of a gate, and what is allowed in it. `distance` is the width of a gate's distance.
#![tactic(auto)]

pub mod forms;

ghost use Rattle.std.specs.Prelude.{◌≡◌, ◌+◌, ◌*◌, ◌≤◌};
ghost use Rattle.profiles.specs.Profiles.{count_of, bytes_for};
ghost use Rattle.gates.specs.Gates.{gate_profile, gate_bits, bits_with, header_put, gate_rules, told_field};

pub const GATE_TYPE: u32 = 3;

// The width of the distance, and the most gates, in the new form.
pub const DISTANCE_WIDTH: u8 = 15;

pub const MOST_GATES: usize = 28;

pub const GATE_BYTES: usize = 9;

// What one of each field weighs in the number that a gate's bits are. A whistling type is the lowest, and weighs 1.
pub const DISTANCE_WEIGHT: u64 = 1048576;

pub const NUMBER_WEIGHT: u64 = 1024;

pub const SUFFIX_WEIGHT: u64 = 128;

pub const MANNING_WEIGHT: u64 = 64;

pub const CLASS_WEIGHT: u64 = 8;

pub const WHISTLING_WEIGHT: u64 = 4;

// The highest values that are allowed.
const LAST_NUMBER: u32 = 1022;

const LAST_SUFFIX: u32 = 6;

const LAST_CLASS: u32 = 6;

const LAST_WHISTLE: u32 = 2;

// How far behind the distance the judged fields start that come after the number.
const SUFFIX_BEHIND: usize = 10;

const CLASS_BEHIND: usize = 14;

const WHISTLE_BEHIND: usize = 18;

// The count of gates that the sub-packet says: the 5 lowest digits of the header's 16.
pub fn count_of(s: &[u8]) -> usize
    ensures { (result ≡ count_of gate_profile s.now) × (result ≤ 31) }
{
    (numbers::half_at(s, 0) % 32) as usize
}

// The bits of a gate.
pub fn gate_bits(distance: u8) -> usize
    ensures { result ≡ gate_bits distance }
{
    distance as usize + 20
}

// The bits of a sub-packet of n gates before its padding.
pub fn bits_of(distance: u8, n: u32) -> usize
    ensures { (result ≡ bits_with distance n) × (result ≤ 16 + 275 * n) }
{
    16 + gate_bits(distance) * n as usize
}

// Begins a sub-packet of n gates, and answers its bytes: puts type, length and count. Its last byte, at whose end the padding stands, is cleared before
// what comes there is put.
pub fn put_header(out: &mut [u8], distance: u8, n: u32) -> usize
    ensures value { result ≡ bytes_for (bits_with distance n) }
    ensures out_after { out.new ≡ header_put (bytes_for (bits_with distance n)) n out.old }
{
    let bytes = (bits_of(distance, n) + 7) / 8;
    numbers::put_byte(out, bytes - 1, 0);
    numbers::put_half(
        out,
        0,
        GATE_TYPE * 4096 + (bytes % 128) as u32 * 32 + n % 32,
    );
    bytes
}

// Judges a gate's fields. What is handed out is the bit of the first one that is not allowed, counted from the gate's first bit.
pub fn judge_fields(
    distance: u8,
    number: u32,
    suffix: u32,
    class: u32,
    whistle: u32,
) -> Result<(), usize>
    ensures { told_field result ≡ gate_rules distance number suffix class whistle }
{
    let number_at = distance as usize;
    if number < 1 {
        return Err(number_at);
    }
    if LAST_NUMBER < number {
        return Err(number_at);
    }
    if LAST_SUFFIX < suffix {
        return Err(number_at + SUFFIX_BEHIND);
    }
    if LAST_CLASS < class {
        return Err(number_at + CLASS_BEHIND);
    }
    if LAST_WHISTLE < whistle {
        return Err(number_at + WHISTLE_BEHIND);
    }
    Ok(())
}
