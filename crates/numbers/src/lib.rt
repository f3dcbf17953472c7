// Numbers of 1, 2 and 4 bytes that start at byte i, high byte first, read and put directly. A byte past the end reads as 0, and one that
// would be put there is dropped. What they mean is a field at a bit position, which `specs` says for every width.
#![tactic(auto)]

ghost use Rattle.std.specs.Prelude.{ℕ, ◌≡◌, ◌+◌, ◌<◌, MatchOption, length, slice_index, take, drop};
ghost use Rattle.std.proofs.lemmas.List.Edits.{sets};
ghost use Rattle.numbers.specs.Numbers.{number_at, put_number};

// The N bytes from byte i on, where all are there.
fn whole_at<const N: usize>(s: &[u8], i: usize) -> Option<&[u8; N]>
    ensures { MatchOption result (length s.now < i + N) (λ b. (k : ℕ) → k < N → slice_index b.now k ≡ slice_index s.now (i + k)) }
{
    if i <= s.len() {
        s[i..].first_chunk()
    } else {
        None
    }
}

// The 8 bytes from byte i on.
fn eight_at(s: &[u8], i: usize) -> [u8; 8]
    ensures { (k : ℕ) → k < 8 → slice_index result k ≡ slice_index s.now (i + k) }
{
    let mut bytes = [0; 8];
    if i < s.len() {
        let there = (s.len() - i).min(8);
        bytes[..there].copy_from_slice(&s[i..i + there]);
    }
    bytes
}

// The 8 bytes from byte i on as a number, for a place near the end. It hands out a number and no bytes, so that where all are there none are put
// on the stack.
#[cold]
#[inline(never)]
pub fn end_at(s: &[u8], i: usize) -> u64
    ensures { result ≡ number_at 8 s.now i }
{
    u64::from_be_bytes(eight_at(s, i))
}

pub fn byte_at(s: &[u8], i: usize) -> u32
    ensures { result ≡ number_at 1 s.now i }
{
    if i < s.len() { u32::from(s[i]) } else { 0 }
}

pub fn half_at(s: &[u8], i: usize) -> u32
    ensures { result ≡ number_at 2 s.now i }
{
    match whole_at(s, i) {
        Some(bytes) => u32::from(u16::from_be_bytes(*bytes)),
        None => half_end(s, i),
    }
}

// The same, for a place near the end: the second byte is not there. It stays out of the callers, so that a loop that reads numbers is a short one.
#[cold]
#[inline(never)]
fn half_end(s: &[u8], i: usize) -> u32
    requires { length s.now < i + 2 }
    ensures { result ≡ number_at 2 s.now i }
{
    byte_at(s, i) * 256
}

pub fn word_at(s: &[u8], i: usize) -> u32
    ensures { result ≡ number_at 4 s.now i }
{
    match whole_at(s, i) {
        Some(bytes) => u32::from_be_bytes(*bytes),
        None => word_end(s, i),
    }
}

// The same, for a place near the end: the fourth byte is not there. It stays out of the callers too.
#[cold]
#[inline(never)]
fn word_end(s: &[u8], i: usize) -> u32
    requires { length s.now < i + 4 }
    ensures { result ≡ number_at 4 s.now i }
{
    if s.len() <= i {
        return 0;
    }
    half_at(s, i) * 65536 + byte_at(s, i + 2) * 256
}

// Puts these bytes from byte i on.
pub fn put_bytes<const N: usize>(out: &mut [u8], i: usize, bytes: [u8; N])
    ensures { out.new ≡ sets out.old i bytes.entry }
{
    if i < out.len() && N <= out.len() - i {
        out[i..i + N].copy_from_slice(&bytes);
    } else {
        put_end(out, i, bytes);
    }
}

// The same, for a place near the end.
#[cold]
#[inline(never)]
fn put_end<const N: usize>(out: &mut [u8], i: usize, bytes: [u8; N])
    ensures { out.new ≡ sets out.old i bytes.entry }
{
    copy(&bytes, 0, N, out, i);
}

pub fn put_byte(out: &mut [u8], i: usize, x: u32)
    ensures { out.new ≡ put_number 1 out.old i x }
{
    if i < out.len() {
        let [.., low] = x.to_be_bytes();
        out[i] = low;
    }
}

pub fn put_half(out: &mut [u8], i: usize, x: u32)
    ensures { out.new ≡ put_number 2 out.old i x }
{
    let [.., high, low] = x.to_be_bytes();
    put_bytes(out, i, [high, low]);
}

pub fn put_word(out: &mut [u8], i: usize, x: u32)
    ensures { out.new ≡ put_number 4 out.old i x }
{
    put_bytes(out, i, x.to_be_bytes());
}

// n bytes from one offset on, put from another on in other bytes. Of those past an end none is read, and none is put.
pub fn copy(from: &[u8], start: usize, n: usize, to: &mut [u8], at: usize)
    ensures { to.new ≡ sets to.old at (take n (drop start from.now)) }
{
    if start < from.len() && at < to.len() {
        let most = n.min(from.len() - start).min(to.len() - at);
        to[at..at + most].copy_from_slice(&from[start..start + most]);
    }
}
