// Any profile written, as in `arrays`; but here an entry is named by the byte of a list at which it starts, and the type of the entries says by a constant
// how many bytes one has.
ghost use Rattle.std.specs.Prelude.{◌≡◌, ℕ, ◌+◌, ◌*◌, ◌≤◌, ◌<◌, length, get_or, drop};
ghost use Rattle.numbers.specs.Pieces.{total, pack};
ghost use Rattle.framing.specs.Told.{told};
ghost use Rattle.framing.specs.Refusals.{none};
ghost use Rattle.profiles.specs.Profiles.{Profile, first_at, widths_for, widths_of};
ghost use Rattle.profiles.specs.Writing.{size_for, written, entry_refusal, list_refusal, write_refusal, write_answer, write_into};
ghost use Rattle.profiles.specs.Regular.{Regular};
ghost use Rattle.profiles.specs.Begun.{begun};

use crate::EntriesWritten;
use framing::refusals;
use framing::refusals::Refusal;

// The entries of a profile, by a type of their own, of which no value is needed. An entry is named by the byte of a list outside at which it starts. An
// entry that the list does not have, more entries than the list has or a sub-packet may have, and a bit behind 2000 are no error: there `judge` refuses
// nothing, `size` and `begin` answer 0, `put` answers its bit, and no byte changes.
pub trait Entry {
    // The bytes of an entry outside a sub-packet.
    const BYTES: usize;

    // The most entries of a sub-packet.
    const MOST: usize;

    // The bit at which the first entry starts.
    const FIRST_AT: usize;

    ghost BYTES: { ℕ };

    ghost MOST: { ℕ };

    ghost FIRST_AT: { ℕ };

    ghost profile: { Profile };

    // Judges an entry. No refusal tells a place: the entry stands in no sub-packet yet.
    fn judge(list: &[u8], at: usize) -> Result<(), Refusal>
        ensures value { at + BYTES ≤ length list.now → told result ≡ entry_refusal profile (drop at list.now) }
        ensures short { length list.now < at + BYTES → told result ≡ none };

    // The bytes of a sub-packet of the first n entries of a list.
    fn size(list: &[u8], n: usize) -> usize
        ensures value { n ≤ MOST → BYTES * n ≤ length list.now → result ≡ size_for profile list.now n }
        ensures many { MOST < n → result ≡ 0 }
        ensures short { length list.now < BYTES * n → result ≡ 0 };

    // Begins a sub-packet of the first n entries of a list, and answers its bytes: puts type, length and count. Its last byte, at whose end the padding
    // stands, is cleared before what comes there is put.
    fn begin(out: &mut [u8], list: &[u8], n: usize) -> usize
        ensures value { n ≤ MOST → BYTES * n ≤ length list.now → result ≡ size_for profile list.now n }
        ensures out_after { n ≤ MOST → BYTES * n ≤ length list.now → out.new ≡ begun profile (size_for profile list.now n) n out.old }
        ensures many { MOST < n → (result ≡ 0) × (out.new ≡ out.old) }
        ensures short { length list.now < BYTES * n → (result ≡ 0) × (out.new ≡ out.old) };

    // Puts an entry from bit p on, and answers the bit behind it.
    fn put(out: &mut [u8], p: usize, list: &[u8], at: usize) -> usize
        ensures value { p ≤ 2000 → at + BYTES ≤ length list.now
            → (result ≡ p + total (widths_for profile (get_or (drop at list.now) 0 0))) × (result ≤ p + 64) }
        ensures out_after { p ≤ 2000 → at + BYTES ≤ length list.now
            → out.new ≡ pack out.old p (widths_for profile (get_or (drop at list.now) 0 0)) (drop at list.now) }
        ensures far { 2000 < p → (result ≡ p) × (out.new ≡ out.old) }
        ensures short { length list.now < at + BYTES → (result ≡ p) × (out.new ≡ out.old) };

    // The laws of any profile are laws of this one.
    ghost regular: { Regular profile };

    // The numbers above are the profile's.
    ghost bytes_are: { BYTES ≡ profile.pieces };

    ghost first_is: { FIRST_AT ≡ first_at profile };

    // So no entry starts behind the bits at which one may be put.
    ghost few_entries: { MOST ≤ 31 };

    ghost starts_low: { FIRST_AT ≤ 16 };
}

// Judges n entries of a list.
fn judge_list<E: Entry>(list: &[u8], n: usize) -> Result<(), Refusal>
    requires { E.BYTES * n ≤ length list.now }
    ensures { told result ≡ list_refusal E.profile list.now n }
{
    for i in 0..n {
        E::judge(list, E::BYTES * i)?;
    }
    Ok(())
}

// Judges a write of a list into `room` bytes.
fn judge_write<E: Entry>(list: &[u8], room: usize) -> Result<(), Refusal>
    ensures { told result ≡ write_refusal E.profile E.MOST list.now room }
{
    let n = list.len() / E::BYTES;
    if 0 < list.len() % E::BYTES {
        return Err(Refusal::NotWholeEntries);
    }
    if E::MOST < n {
        return Err(Refusal::TooManyEntries);
    }
    judge_list::<E>(list, n)?;
    if room < E::size(list, n) {
        return Err(Refusal::NoRoom);
    }
    Ok(())
}

// Puts the n entries of a list behind the header.
fn put_entries<E: Entry>(out: &mut [u8], list: &[u8], n: usize)
    requires few { n ≤ E.MOST }
    requires there { E.BYTES * n ≤ length list.now }
    ensures { out.new ≡ pack out.old (first_at E.profile) (widths_of E.profile list.now n) list.now }
{
    let mut p = E::FIRST_AT;
    for i in 0..n {
        p = E::put(out, p, list, E::BYTES * i);
    }
}

// Puts the whole sub-packet of the n entries that a list is, and answers its bytes.
fn put_packet<E: Entry>(out: &mut [u8], list: &[u8], n: usize) -> usize
    requires few { n ≤ E.MOST }
    requires whole { length list.now ≡ E.BYTES * n }
    ensures value { result ≡ size_for E.profile list.now n }
    ensures out_after { out.new ≡ written E.profile list.now out.old }
{
    let bytes = E::begin(out, list, n);
    put_entries::<E>(out, list, n);
    bytes
}

// Writes the entries of `list` as a sub-packet from the start of `out`. What lies behind it in `out` stays.
pub fn write<E: Entry>(list: &[u8], out: &mut [u8]) -> EntriesWritten
    ensures value { result ≡ write_answer E.profile E.MOST list.now out.old }
    ensures out_after { out.new ≡ write_into E.profile E.MOST list.now out.old }
{
    match judge_write::<E>(list, out.len()) {
        Ok(_) => {
            let entries = list.len() / E::BYTES;
            let bytes = put_packet::<E>(out, list, entries);
            EntriesWritten {
                answer: refusals::ACCEPTED,
                entries,
                bytes,
            }
        }
        Err(refusal) => EntriesWritten::from(refusal),
    }
}
