// The first sub-packet of lent bytes: what refuses it, and where it ends (radio annex). No crate of sub-packets knows anything of trains. The
// header is read as one number of 16 bits: its 4 highest digits are the type, the next 7 the length.
#![tactic(auto)]

pub mod refusals;

ghost use Rattle.std.specs.Prelude.{◌≡◌, ◌<◌};
ghost use Rattle.framing.specs.Framing.{type_of, length_of, head_refusal, frame_refusal, frame_of};
ghost use Rattle.framing.specs.Told.{told};

use refusals::Refusal;

const LAST_TYPE: u32 = 7;

// The type that the header says.
fn type_of(s: &[u8]) -> u32
    ensures { result ≡ type_of s.now }
{
    numbers::half_at(s, 0) / 4096 % 16
}

// The length that the header says, in bytes of the whole sub-packet.
pub fn length_of(s: &[u8]) -> usize
    ensures { (result ≡ length_of s.now) × (result < 128) }
{
    (numbers::half_at(s, 0) / 32 % 128) as usize
}

// Judges the header, where the types from `low` to `high` are taken.
pub fn judge_head(s: &[u8], low: u32, high: u32) -> Result<(), Refusal>
    ensures { told result ≡ head_refusal s.now low high }
{
    if s.len() < 2 {
        return Err(Refusal::TooShort);
    }
    let kind = type_of(s);
    if kind < low {
        return Err(Refusal::WrongType);
    }
    if high < kind {
        return Err(Refusal::WrongType);
    }
    let n = length_of(s);
    if n < 2 {
        return Err(Refusal::LengthTooSmall);
    }
    if s.len() < n {
        return Err(Refusal::CutOff);
    }
    Ok(())
}

// Judges the first sub-packet of `s`.
pub fn judge_frame(s: &[u8]) -> Result<(), Refusal>
    ensures { told result ≡ frame_refusal s.now }
{
    judge_head(s, 0, LAST_TYPE)
}

// The first sub-packet of `s`, header included; nothing on a refusal.
pub fn frame(s: &[u8]) -> &[u8]
    ensures { (result.now ≡ frame_of s.now) × (result.ref_ptr ≡ s.entry.ref_ptr) }
{
    match judge_frame(s) {
        Ok(_) => &s[..length_of(s)],
        Err(_) => &s[..0],
    }
}
