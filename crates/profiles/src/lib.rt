// Profiles: sub-packets of type, length, count, and so many entries (radio annex). Here is what reading and writing them share, whatever their
// entries are; `bits` is the bits of a sub-packet before its padding.
#![tactic(auto)]

pub mod arrays;
pub mod in_list;
pub mod writing;

ghost use Rattle.std.specs.Prelude.{◌≡◌};
ghost use Rattle.numbers.specs.Fields.{field};
ghost use Rattle.framing.specs.Told.{ground_of, told};
ghost use Rattle.profiles.specs.Profiles.{bytes_for, padding_for};
ghost use Rattle.profiles.specs.Reading.{shape_refusal, end_refusal, room_refusal, refused_for};
ghost use Rattle.profiles.specs.Writing.{not_written};

use fields::search;
use framing::refusals::Refusal;

// What a read answers: 0 with the entries and the bytes of the sub-packet, or a refusal's number and place with zeros. Numbers stand here and no
// `Result`, since C reads it.
#[repr(C)]
#[derive(Clone, Copy)]
pub struct EntriesRead {
    pub answer: u32,
    pub place: usize,
    pub entries: usize,
    pub bytes: usize,
}

// What a write answers: 0 with the entries and the bytes of the sub-packet, or a refusal's number with zeros. C reads it too.
#[repr(C)]
#[derive(Clone, Copy)]
pub struct EntriesWritten {
    pub answer: u32,
    pub entries: usize,
    pub bytes: usize,
}

// The answer of a read that is refused.
impl From<Refusal> for EntriesRead {
    ghost from_gives = { λ refusal answer. answer ≡ refused_for (ground_of refusal) };

    fn from(refusal: Refusal) -> EntriesRead {
        EntriesRead {
            answer: refusal.number(),
            place: refusal.place(),
            entries: 0,
            bytes: 0,
        }
    }
}

// The answer of a write that is refused.
impl From<Refusal> for EntriesWritten {
    ghost from_gives = { λ refusal answer. answer ≡ not_written (ground_of refusal) };

    fn from(refusal: Refusal) -> EntriesWritten {
        EntriesWritten {
            answer: refusal.number(),
            entries: 0,
            bytes: 0,
        }
    }
}

// The bytes that so many bits take.
pub fn bytes_for(bits: u32) -> usize
    ensures { result ≡ bytes_for bits }
{
    (bits as usize + 7) / 8
}

// Judges a sub-packet of type `kind` before its entries are looked at.
pub fn judge_shape(s: &[u8], kind: u32, bits: u32) -> Result<(), Refusal>
    ensures { told result ≡ shape_refusal kind s.now bits }
{
    framing::judge_head(s, kind, kind)?;
    if framing::length_of(s) != bytes_for(bits) {
        return Err(Refusal::LengthNotForCount);
    }
    Ok(())
}

// The bits that fill up the last byte behind so many: its low digits.
fn padding_of(s: &[u8], bits: u32) -> u32
    ensures { result ≡ field s.now bits (padding_for bits) }
{
    let width = (8 - bits as usize % 8) % 8;
    numbers::byte_at(s, bits as usize / 8) % (1u32 << width)
}

// Judges it behind its entries, where these take `bytes` outside and have `room`.
pub fn judge_end(s: &[u8], bits: u32, bytes: usize, room: usize) -> Result<(), Refusal>
    ensures { told result ≡ end_refusal s.now bits bytes room }
{
    if 0 < padding_of(s, bits) {
        let end = 8 * bytes_for(bits);
        return Err(Refusal::PaddingSet(search::first_set(s, bits as usize, end)));
    }
    judge_room(bytes, room)
}

// Judges whether `bytes` bytes have `room`.
pub fn judge_room(bytes: usize, room: usize) -> Result<(), Refusal>
    ensures { told result ≡ room_refusal bytes room }
{
    if room < bytes {
        return Err(Refusal::NoRoom);
    }
    Ok(())
}
