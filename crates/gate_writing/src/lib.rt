// Gates written as a sub-packet: what the writer of any profile asks of a gate.
#![tactic(auto)]

ghost use Rattle.std.specs.Prelude.{◌≡◌, ◌+◌, ◌*◌, ◌≤◌, length, get_or, refl};
ghost use Rattle.std.proofs.Common.{lit≤};
ghost use Rattle.framing.specs.Told.{told};
ghost use Rattle.profiles.specs.Writing.{entry_refusal, write_answer, write_into};
ghost use Rattle.profiles.specs.Numbered.{IsNumberOf};
ghost use Rattle.gates.specs.Gates.{gate_profile, gate_bytes, distance_width, most_gates};
ghost use Rattle.gates.proofs.GateLaws.{regular};

use framing::refusals;
use framing::refusals::Refusal;
use gates::GATE_BYTES;
use profiles::arrays::Entry;
use profiles::{EntriesWritten, arrays};

// The highest that a distance's high byte may be: it has what the width has above 8 bits.
const LAST_HIGH: u32 = (1 << (gates::DISTANCE_WIDTH - 8)) - 1;

// The number that two bytes of a list are, the high one first.
fn pair_at(list: &[u8], i: usize) -> u32
    requires { i + 2 ≤ length list.now }
    ensures { (result ≡ get_or list.now i 0 * 256 + get_or list.now (i + 1) 0) × (result ≤ 65535) }
{
    u32::from(list[i]) * 256 + u32::from(list[i + 1])
}

// Judges a gate. Only the distance's high piece, manning and whistling are judged by their widths: a whole byte is as wide as its piece, and the rules
// allow no number, suffix, class or whistling type as high as a value that is too wide.
fn judge_gate(gate: &[u8]) -> Result<(), Refusal>
    requires { gate_bytes ≤ length gate.now }
    ensures { told result ≡ entry_refusal gate_profile gate.now }
{
    if LAST_HIGH < u32::from(gate[0]) {
        return Err(Refusal::TooWide);
    }
    if 1 < u32::from(gate[5]) {
        return Err(Refusal::TooWide);
    }
    if 1 < u32::from(gate[7]) {
        return Err(Refusal::TooWide);
    }
    let number = pair_at(gate, 2);
    let suffix = u32::from(gate[4]);
    let class = u32::from(gate[6]);
    let whistle = u32::from(gate[8]);
    match gates::judge_fields(gates::DISTANCE_WIDTH, number, suffix, class, whistle) {
        Ok(_) => Ok(()),
        Err(_) => Err(Refusal::NotAllowed(refusals::NOWHERE)),
    }
}

// A gate as one number, its pieces one behind the other. Each is cut to its width but the distance, which stands above the others: where it is put, the
// field ends.
fn number_of(gate: &[u8]) -> u64
    requires { gate_bytes ≤ length gate.now }
    ensures { IsNumberOf gate_profile gate.now result }
{
    let far = u64::from(pair_at(gate, 0));
    let number = u64::from(pair_at(gate, 2) % 1024);
    let suffix = u64::from(gate[4] % 8);
    let manning = u64::from(gate[5] % 2);
    let class = u64::from(gate[6] % 8);
    let whistling = u64::from(gate[7] % 2);
    let whistle = u64::from(gate[8] % 4);
    let numbered = far * gates::DISTANCE_WEIGHT + number * gates::NUMBER_WEIGHT;
    let manned = suffix * gates::SUFFIX_WEIGHT + manning * gates::MANNING_WEIGHT;
    let whistled = class * gates::CLASS_WEIGHT + whistling * gates::WHISTLING_WEIGHT + whistle;
    numbered + manned + whistled
}

struct Gate;

impl Entry<GATE_BYTES> for Gate {
    const MOST: usize = gates::MOST_GATES;

    const FIRST_AT: usize = 16;

    ghost MOST = { most_gates };

    ghost FIRST_AT = { 16 };

    ghost profile = { gate_profile };

    fn judge(entry: &[u8; GATE_BYTES]) -> Result<(), Refusal> {
        judge_gate(entry)
    }

    fn size(list: &[u8], n: u8) -> usize {
        profiles::bytes_for(gates::bits_of(gates::DISTANCE_WIDTH, n as u32) as u32)
    }

    fn begin(out: &mut [u8], list: &[u8], n: u8) -> usize {
        gates::put_header(out, gates::DISTANCE_WIDTH, n as u32)
    }

    fn put(out: &mut [u8], p: usize, entry: &[u8; GATE_BYTES]) -> usize {
        let bits = gates::gate_bits(gates::DISTANCE_WIDTH);
        fields::write_wide(out, p, bits, number_of(entry));
        bits
    }

    ghost regular = { regular distance_width (lit≤ tt) };

    ghost bytes_are = { refl };

    ghost first_is = { refl };

    ghost few_entries = { lit≤ tt };

    ghost starts_low = { lit≤ tt };
}

// Writes the gates of `list`, 9 bytes for each, as a sub-packet from the start of `out`. What lies behind it in `out` stays.
pub fn write_gates(list: &[u8], out: &mut [u8]) -> EntriesWritten
    ensures value { result ≡ write_answer gate_profile most_gates list.now out.old }
    ensures out_after { out.new ≡ write_into gate_profile most_gates list.now out.old }
{
    arrays::write::<GATE_BYTES, Gate>(list, out)
}
