// A line put into an output.
ghost use Rattle.std.specs.Prelude.{◌≡◌, ◌+◌, leb};
ghost use Rattle.turns.specs.Placing.{IsPut};

use lines::Line;

// Do `n` bytes from `at` on fit into `size` bytes?
fn fits(at: usize, n: usize, size: usize) -> bool
    ensures { result ≡ leb (at + n) size }
{
    n <= size && at <= size - n
}

// Puts a line at `at`, where all of it fits, and gives its length.
pub(crate) fn put(output: &mut [u8], at: usize, line: Line) -> usize
    ensures { IsPut line output.old at output.new result }
{
    if fits(at, line.len, output.len()) {
        numbers::copy(&line.bytes, 0, line.len, output, at);
    }
    line.len
}
