// Lists the recordings that standard input holds, each lent whole, and prints what comes of it.
// A case: the output's room and the recording's length (2 bytes each), and the recording. What is printed: the answer and the bytes written, and
// the whole output, which held dots before.
#![tactic(auto)]

ghost use Rattle.std.specs.Prelude.{◌≡◌, ◌<◌, ◌≤◌, length};

use listing::whole;

// The descriptors of the standard input and output. Both go by `io`: std's printing would rest on one more contract of the toolchain, that of the error's number.
const STDIN_FILENO: i32 = 0;

const STDOUT_FILENO: i32 = 1;

const HEADER: usize = 4;

fn fresh_output() -> [u8; 65536]
    ensures { 65536 ≡ length result }
{
    [b'.'; 65536]
}

fn small(n: u32) -> usize
    ensures { result < 65536 }
{
    (n % 65536) as usize
}

fn run_list(recording: &[u8], output: &mut [u8]) {
    let (answer, written) = match whole::list(recording, output) {
        Ok(written) => (0, written),
        Err(refused) => (u64::from(refused.number()), 0),
    };
    io::print_decimal(STDOUT_FILENO, answer);
    io::write_all(STDOUT_FILENO, b" ");
    io::print_decimal(STDOUT_FILENO, written as u64);
    io::write_all(STDOUT_FILENO, b"\n");
    io::write_all(STDOUT_FILENO, output);
    io::write_all(STDOUT_FILENO, b"\n");
}

// Runs the case that `s` begins with, and answers where the next one starts.
fn run_case(s: &[u8]) -> usize
    ensures { (0 < result) × (result ≤ 65540) }
{
    let room = small(numbers::half_at(s, 0));
    let next = HEADER + small(numbers::half_at(s, 2));
    let mut output = fresh_output();
    if next <= s.len() {
        run_list(&s[HEADER..next], &mut output[..room]);
    }
    next
}

// A `for` is no plainer here: each case tells where the next one starts.
fn run_all(s: &[u8]) {
    let mut at = 0;
    while at < s.len() {
        at += run_case(&s[at..]);
    }
}

fn main() {
    let mut input = io::large_buffer();
    let n = io::read_full(STDIN_FILENO, &mut input);
    run_all(&input[..n]);
}
