// Runs the packet layer's public functions on the cases that standard input holds, and prints a line for each.
// A case: a kind (1 framing, 2 gates read, 3 gates written, 4 turnouts read, 5 turnouts written, 6 gates moved forward, 7 gates moved back), the
// output's room and the input's length (2 bytes each), and the input.
// A line: kind, answer, what is told besides, and the whole output afterwards, which held AA before. A read tells place, entries and bytes, a write
// entries and bytes, a move place, gates and the bytes of both sub-packets. Framing tells the place and the sub-packet's length, and prints the
// sub-packet.
#![tactic(auto)]

ghost use Rattle.std.specs.Prelude.{◌≡◌, ◌<◌, ◌≤◌, length};

use framing::refusals;
use gates::forms::Form;
use profiles::{EntriesRead, EntriesWritten};

// The descriptors of the standard input and output.
const STDIN_FILENO: i32 = 0;

const STDOUT_FILENO: i32 = 1;

const HEADER: usize = 5;

const MOST_ROOM: usize = 300;

fn print_number(n: usize) {
    io::print_decimal(STDOUT_FILENO, n as u64);
    io::write_all(STDOUT_FILENO, b" ");
}

fn print_bytes(s: &[u8]) {
    for byte in s {
        io::print_hex(STDOUT_FILENO, u64::from(*byte), 2);
    }
}

fn end_line() {
    io::write_all(STDOUT_FILENO, b"\n");
}

fn print_kind(kind: usize, answer: u32) {
    print_number(kind);
    print_number(answer as usize);
}

fn run_frame(s: &[u8]) {
    let (answer, place) = match framing::judge_frame(s) {
        Ok(()) => (refusals::ACCEPTED, refusals::NOWHERE),
        Err(refusal) => (refusal.number(), refusal.place()),
    };
    let sub = framing::frame(s);
    print_kind(1, answer);
    print_number(place);
    print_number(sub.len());
    print_bytes(sub);
    end_line();
}

fn print_read(kind: usize, read: EntriesRead, out: &[u8]) {
    print_kind(kind, read.answer);
    print_number(read.place);
    print_number(read.entries);
    print_number(read.bytes);
    print_bytes(out);
    end_line();
}

fn print_written(kind: usize, written: EntriesWritten, out: &[u8]) {
    print_kind(kind, written.answer);
    print_number(written.entries);
    print_number(written.bytes);
    print_bytes(out);
    end_line();
}

fn read_gates(s: &[u8], out: &mut [u8]) {
    let read = gate_reading::read_gates(s, out);
    print_read(2, read, out);
}

fn write_gates(s: &[u8], out: &mut [u8]) {
    let written = gate_writing::write_gates(s, out);
    print_written(3, written, out);
}

fn read_turnouts(s: &[u8], out: &mut [u8]) {
    let read = turnout_reading::read_turnouts(s, out);
    print_read(4, read, out);
}

fn write_turnouts(s: &[u8], out: &mut [u8]) {
    let written = turnout_writing::write_turnouts(s, out);
    print_written(5, written, out);
}

fn move_gates(kind: usize, from: Form, s: &[u8], out: &mut [u8]) {
    let moved = gate_moving::move_gates(from, s, out);
    print_kind(kind, moved.answer);
    print_number(moved.place);
    print_number(moved.gates);
    print_number(moved.used);
    print_number(moved.written);
    print_bytes(out);
    end_line();
}

fn fresh_output() -> [u8; MOST_ROOM]
    ensures { 300 ≡ length result }
{
    [0xAA; MOST_ROOM]
}

fn small(n: u32) -> usize
    ensures { result < 65536 }
{
    (n % 65536) as usize
}

// A kind stays the number that the input has: the line tells it again.
fn run_kind(kind: u32, s: &[u8], out: &mut [u8]) {
    match kind {
        1 => run_frame(s),
        2 => read_gates(s, out),
        3 => write_gates(s, out),
        4 => read_turnouts(s, out),
        5 => write_turnouts(s, out),
        6 => move_gates(6, Form::Old, s, out),
        _ => move_gates(7, Form::New, s, out),
    }
}

// Runs the case that `s` begins with, and answers where the next one starts.
fn run_case(s: &[u8]) -> usize
    ensures { (0 < result) × (result ≤ 65540) }
{
    let next = HEADER + small(numbers::half_at(s, 3));
    let end = next.min(s.len());
    let start = HEADER.min(end);
    let room = small(numbers::half_at(s, 1)).min(MOST_ROOM);
    let mut out = fresh_output();
    run_kind(numbers::byte_at(s, 0), &s[start..end], &mut out[..room]);
    next
}

// A `for` is no plainer here: each case tells where the next one starts.
fn run_all(s: &[u8]) {
    let mut at = 0;
    while at < s.len() {
        at += run_case(&s[at..]);
    }
}

fn main() {
    let mut input = io::large_buffer();
    let n = io::read_full(STDIN_FILENO, &mut input);
    run_all(&input[..n]);
}
