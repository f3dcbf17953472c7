// Windows: the 8 bytes from a byte on as one number, high byte first. A byte past the end reads as 0, and one that would be put there is dropped.
ghost use Rattle.std.specs.Prelude.{◌≡◌, ◌<◌, ◌^◌};
ghost use Rattle.numbers.specs.Numbers.{number_at, put_number};

// The 8 bytes from byte i on as one number: one test where all eight are there. They are taken low byte first, which is the order of the
// processor's words, and swapped: so they are compiled to one load, also where only some of the digits are used.
pub(crate) fn window(s: &[u8], i: usize) -> u64
    requires { i < 2 ^ 62 }
    ensures { result ≡ number_at 8 s.now i }
{
    if i + 8 <= s.len() {
        u64::from_le_bytes(*s[i..i + 8].first_chunk().unwrap()).swap_bytes()
    } else {
        numbers::end_at(s, i)
    }
}

// Makes the 8 bytes from byte i on the number x.
pub(crate) fn put_window(out: &mut [u8], i: usize, x: u64)
    requires { i < 2 ^ 62 }
    ensures { out.new ≡ put_number 8 out.old i x }
{
    if i + 8 <= out.len() {
        out[i..i + 8].copy_from_slice(&x.to_be_bytes());
    } else {
        numbers::put_bytes(out, i, x.to_be_bytes());
    }
}
