// Any profile written, each entry handed over as an array of its bytes: everything is judged first, and written afterwards, so that a refusal changes
// nothing. What the profile's own code does is judge an entry, count the bytes, begin the sub-packet and put an entry.
ghost use Rattle.std.specs.Prelude.{◌≡◌, ℕ, ◌+◌, ◌*◌, ◌≤◌, length, get_or, take, drop};
ghost use Rattle.numbers.specs.Pieces.{total, pack};
ghost use Rattle.framing.specs.Told.{told};
ghost use Rattle.profiles.specs.Profiles.{Profile, first_at, widths_for, widths_of};
ghost use Rattle.profiles.specs.Writing.{size_for, written, entry_refusal, list_refusal, write_refusal, write_answer, write_into};
ghost use Rattle.profiles.specs.Regular.{Regular};
ghost use Rattle.profiles.specs.Begun.{begun};

use crate::EntriesWritten;
use framing::refusals;
use framing::refusals::Refusal;

// The entries of a profile, by a type of their own, of which no value is needed. An entry is its bytes outside a sub-packet.
pub trait Entry<const BYTES: usize> {
    // The most entries of a sub-packet.
    const MOST: usize;

    // The bit at which the first entry starts.
    const FIRST_AT: usize;

    ghost MOST: { ℕ };

    ghost FIRST_AT: { ℕ };

    ghost profile: { Profile };

    // Judges an entry. No refusal tells a place: the entry stands in no sub-packet yet.
    fn judge(entry: &[u8; BYTES]) -> Result<(), Refusal>
        ensures { told result ≡ entry_refusal profile entry.now };

    // The bytes of a sub-packet of the first n entries of a list. Bytes that the list does not have count as zeros.
    fn size(list: &[u8], n: u8) -> usize
        ensures { result ≡ size_for profile list.now n };

    // Begins a sub-packet of the first n entries of a list, and answers its bytes: puts type, length and count. Its last byte, at whose end the padding
    // stands, is cleared before what comes there is put.
    fn begin(out: &mut [u8], list: &[u8], n: u8) -> usize
        ensures value { result ≡ size_for profile list.now n }
        ensures out_after { out.new ≡ begun profile (size_for profile list.now n) n out.old };

    // Puts an entry from bit p on, and answers its bits.
    fn put(out: &mut [u8], p: usize, entry: &[u8; BYTES]) -> usize
        ensures value { (result ≡ total (widths_for profile (get_or entry.now 0 0))) × (result ≤ 64) }
        ensures out_after { out.new ≡ pack out.old p (widths_for profile (get_or entry.now 0 0)) entry.now };

    // The laws of any profile are laws of this one.
    ghost regular: { Regular profile };

    // The numbers above are the profile's.
    ghost bytes_are: { BYTES ≡ profile.pieces };

    ghost first_is: { FIRST_AT ≡ first_at profile };

    // So a count fits a byte, and no place of an entry overflows.
    ghost few_entries: { MOST ≤ 31 };

    ghost starts_low: { FIRST_AT ≤ 16 };
}

// Entry i of a list that has it.
fn entry_at<const BYTES: usize>(list: &[u8], i: usize) -> &[u8; BYTES]
    requires { BYTES * (i + 1) ≤ length list.now }
    ensures { result.now ≡ take BYTES (drop (BYTES * i) list.now) }
{
    // it is cut to its bytes first, so that no length is compared when it runs
    list[BYTES * i..][..BYTES].first_chunk().unwrap()
}

// Judges n entries of a list.
fn judge_list<const BYTES: usize, E: Entry<BYTES>>(list: &[u8], n: usize) -> Result<(), Refusal>
    requires { BYTES * n ≤ length list.now }
    ensures { told result ≡ list_refusal E.profile list.now n }
{
    for i in 0..n {
        E::judge(entry_at(list, i))?;
    }
    Ok(())
}

// Judges a write of a list into `room` bytes.
fn judge_write<const BYTES: usize, E: Entry<BYTES>>(list: &[u8], room: usize) -> Result<(), Refusal>
    ensures { told result ≡ write_refusal E.profile E.MOST list.now room }
{
    let n = list.len() / BYTES;
    if 0 < list.len() % BYTES {
        return Err(Refusal::NotWholeEntries);
    }
    if E::MOST < n {
        return Err(Refusal::TooManyEntries);
    }
    judge_list::<BYTES, E>(list, n)?;
    if room < E::size(list, n as u8) {
        return Err(Refusal::NoRoom);
    }
    Ok(())
}

// Puts the n entries of a list behind the header.
fn put_entries<const BYTES: usize, E: Entry<BYTES>>(out: &mut [u8], list: &[u8], n: usize)
    requires few { n ≤ E.MOST }
    requires there { BYTES * n ≤ length list.now }
    ensures { out.new ≡ pack out.old (first_at E.profile) (widths_of E.profile list.now n) list.now }
{
    let mut p = E::FIRST_AT;
    for i in 0..n {
        p += E::put(out, p, entry_at(list, i));
    }
}

// Puts the whole sub-packet of the n entries that a list is, and answers its bytes.
fn put_packet<const BYTES: usize, E: Entry<BYTES>>(out: &mut [u8], list: &[u8], n: usize) -> usize
    requires few { n ≤ E.MOST }
    requires whole { length list.now ≡ BYTES * n }
    ensures value { result ≡ size_for E.profile list.now n }
    ensures out_after { out.new ≡ written E.profile list.now out.old }
{
    let bytes = E::begin(out, list, n as u8);
    put_entries::<BYTES, E>(out, list, n);
    bytes
}

// Writes the entries of `list` as a sub-packet from the start of `out`. What lies behind it in `out` stays.
pub fn write<const BYTES: usize, E: Entry<BYTES>>(list: &[u8], out: &mut [u8]) -> EntriesWritten
    ensures value { result ≡ write_answer E.profile E.MOST list.now out.old }
    ensures out_after { out.new ≡ write_into E.profile E.MOST list.now out.old }
{
    match judge_write::<BYTES, E>(list, out.len()) {
        Ok(_) => {
            let entries = list.len() / BYTES;
            let bytes = put_packet::<BYTES, E>(out, list, entries);
            EntriesWritten {
                answer: refusals::ACCEPTED,
                entries,
                bytes,
            }
        }
        Err(refusal) => EntriesWritten::from(refusal),
    }
}
