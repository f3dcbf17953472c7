// What `arrays` writes, written by `writing` too: each entry is taken out of the list where it starts.
ghost use Rattle.std.specs.Prelude.{true, false, ◌≡◌, ◌+◌, ◌*◌, ◌≤◌, ◌<◌, length, take, drop};

use crate::arrays;
use crate::writing::Entry;
use framing::refusals::Refusal;
use std::marker::PhantomData;

// The last bit from which an entry is put. No sub-packet has so many bits.
const LAST_PLACE: usize = 2000;

// Does a list end before its first n entries do? E's laws say that an entry has a byte at least, so nothing is divided by 0.
fn is_short<const BYTES: usize, E: arrays::Entry<BYTES>>(list: &[u8], n: usize) -> bool
    ensures yes { result ≡ true → length list.now < BYTES * n }
    ensures no { result ≡ false → BYTES * n ≤ length list.now }
{
    list.len() / BYTES < n
}

// Does it end before an entry from byte `at` on would?
fn ends_within<const BYTES: usize>(list: &[u8], at: usize) -> bool
    ensures yes { result ≡ true → length list.now < at + BYTES }
    ensures no { result ≡ false → at + BYTES ≤ length list.now }
{
    list.len() < at || list.len() - at < BYTES
}

// The entry at a byte of a list that has all of it.
fn entry_at<const BYTES: usize>(list: &[u8], at: usize) -> &[u8; BYTES]
    requires { at + BYTES ≤ length list.now }
    ensures { result.now ≡ take BYTES (drop at list.now) }
{
    list[at..][..BYTES].first_chunk().unwrap()
}

// The entries of E, each named by the byte of a list at which it starts.
pub struct InList<const BYTES: usize, E> {
    of: PhantomData<E>,
}

impl<const BYTES: usize, E: arrays::Entry<BYTES>> Entry for InList<BYTES, E> {
    const BYTES: usize = BYTES;

    const MOST: usize = E::MOST;

    const FIRST_AT: usize = E::FIRST_AT;

    ghost BYTES = { BYTES };

    ghost MOST = { E.MOST };

    ghost FIRST_AT = { E.FIRST_AT };

    ghost profile = { E.profile };

    fn judge(list: &[u8], at: usize) -> Result<(), Refusal> {
        if ends_within::<BYTES>(list, at) {
            return Ok(());
        }
        E::judge(entry_at(list, at))
    }

    fn size(list: &[u8], n: usize) -> usize {
        if E::MOST < n || is_short::<BYTES, E>(list, n) {
            return 0;
        }
        E::size(list, n as u8)
    }

    fn begin(out: &mut [u8], list: &[u8], n: usize) -> usize {
        if E::MOST < n || is_short::<BYTES, E>(list, n) {
            return 0;
        }
        E::begin(out, list, n as u8)
    }

    fn put(out: &mut [u8], p: usize, list: &[u8], at: usize) -> usize {
        if LAST_PLACE < p || ends_within::<BYTES>(list, at) {
            return p;
        }
        p + E::put(out, p, entry_at(list, at))
    }

    ghost regular = { E.regular };

    ghost bytes_are = { E.bytes_are };

    ghost first_is = { E.first_is };

    ghost few_entries = { E.few_entries };

    ghost starts_low = { E.starts_low };
}
