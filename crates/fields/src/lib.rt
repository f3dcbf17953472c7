// Fields of bits, read and put by their bit position: bits run from the top bit of the first byte, a bit past the end reads as 0, and putting one
// there does nothing. What a field is, `numbers` says for every width; here it is read from whole bytes, and shifted.
#![tactic(auto)]

pub mod search;
mod windows;

ghost use Rattle.std.specs.Prelude.{◌≡◌, ◌+◌, ◌-◌, ◌*◌, ◌/◌, ◌%◌, ◌<◌, ◌≤◌, ◌^◌, min};
ghost use Rattle.numbers.specs.Fields.{field, put};

// A value is a u32, so a width above 32 counts as 32.
const WIDEST: usize = 32;

// At any bit of a byte, a field of so many bits lies in 8 bytes: 64 - 7.
const WIDEST_WIDE: usize = 57;

const WINDOW_BITS: usize = 64;

// 2 to the power k.
fn weight(k: usize) -> u64
    requires { k ≤ 63 }
    ensures { result ≡ 2 ^ k }
{
    1u64 << k
}

// The field of `width` bits at bit position `at`; a width above 57 counts as 57.
pub fn read_wide(s: &[u8], at: usize, width: usize) -> u64
    ensures { result ≡ field s.now at (min width 57) }
{
    let w = width.min(WIDEST_WIDE);
    if w == 0 {
        return 0;
    }
    (windows::window(s, at / 8) >> (WINDOW_BITS - at % 8 - w)) % weight(w)
}

// The field of `width` bits at bit position `at`.
pub fn read_field(s: &[u8], at: usize, width: usize) -> u32
    ensures { result ≡ field s.now at (min width 32) }
{
    read_wide(s, at, width.min(WIDEST)) as u32
}

// The number x with the w digits above its m lowest made those of v; the others stay.
fn with_digits(x: u64, m: usize, w: usize, v: u64) -> u64
    requires { (m ≤ 63) × (w ≤ 57) × (m + w ≤ 64) }
    ensures { result ≡ x - x / 2 ^ m % 2 ^ w * 2 ^ m + v % 2 ^ w * 2 ^ m }
{
    let span = weight(w);
    let old = (x >> m) % span;
    let new = v % span;
    x - (old << m) + (new << m)
}

// Makes the `width` bits from position `at` on the low digits of `value`; a width above 57 counts as 57.
pub fn write_wide(out: &mut [u8], at: usize, width: usize, value: u64)
    ensures { out.new ≡ put out.old at (min width 57) value }
{
    let w = width.min(WIDEST_WIDE);
    if 0 < w {
        let x = windows::window(out, at / 8);
        let y = with_digits(x, WINDOW_BITS - at % 8 - w, w, value);
        windows::put_window(out, at / 8, y);
    }
}

// Makes the `width` bits from position `at` on the low digits of `value`.
pub fn write_field(out: &mut [u8], at: usize, width: usize, value: u32)
    ensures { out.new ≡ put out.old at (min width 32) value }
{
    write_wide(out, at, width.min(WIDEST), u64::from(value));
}
