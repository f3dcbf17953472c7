// Prints the mode step of every mode for no flags, for each single flag and for all flags set, some steps with two and three flags, steps
// that are refused, and frame ages. A line is what was asked, the answer's number and its values; of a step by the engine in use, then by
// the plain one. What cannot be written is passed over.
#![tactic(auto)]

use modes::Step;
use std::fmt::{self, Display, Formatter, Write};
use transitions::names::*;

const STANDARD_OUTPUT: i32 = 1;

const FLAGS: usize = 91;

// The standard output. It goes by `io`: `println!` would rest on one more contract of the toolchain, that of the error's number, which nothing
// here asks for.
#[derive(Drop)]
struct Output;

impl Write for Output {
    fn write_str(&mut self, text: &str) -> fmt::Result {
        io::write_all(STANDARD_OUTPUT, text.as_bytes());
        Ok(())
    }
}

// A number behind a line's first word, and the space between them. As `word {n}` the word and the space would be handed over in one piece. A nearly full
// pipe that does not block takes a piece whole or not at all, so small ones get more of a line out.
#[derive(Drop)]
struct Number(u32);

impl Display for Number {
    fn fmt<W: Write>(&self, f: &mut Formatter<W>) -> fmt::Result {
        write!(f, " {}", self.0)
    }
}

// 91 flags, of which these conditions alone are set; a number that is no condition sets none.
fn flags_with(set: &[u32]) -> [u8; FLAGS] {
    let mut flags = [0; FLAGS];
    for &n in set {
        let condition = n as usize;
        if (1..=FLAGS).contains(&condition) {
            flags[condition - 1] = 1;
        }
    }
    flags
}

// The numbers of a step, as a line has them.
#[derive(Drop)]
struct Told(Step);

impl Display for Told {
    fn fmt<W: Write>(&self, f: &mut Formatter<W>) -> fmt::Result {
        let Step {
            answer,
            mode,
            priority,
            tie,
        } = self.0;
        write!(f, " {answer} {mode} {priority} {tie}")
    }
}

// What was asked, and the step by each engine.
fn step(out: &mut Output, asked: impl Display + Drop, mode: u32, flags: &[u8]) {
    let in_use = Told(modes::next_mode(mode, flags));
    let plain = Told(modes::plain::next_mode(mode, flags));
    let _ = writeln!(out, "{asked}{in_use}{plain}");
}

// The steps with no condition set, with each one alone, and with all.
fn steps(out: &mut Output, mode: u32) {
    for n in 0..92 {
        step(
            out,
            format_args!("step{} {n}", Number(mode)),
            mode,
            &flags_with(&[n]),
        );
    }
    step(
        out,
        format_args!("step{} all", Number(mode)),
        mode,
        &[1; FLAGS],
    );
}

// The paper's two examples of FS, then a tie of each mode that has one, and two conditions of one transition, which are no tie.
fn pairs(out: &mut Output) {
    for (mode, a, b) in [
        (FS, 71, 76),
        (FS, 69, 2),
        (SB, 60, 62),
        (SR, 45, 56),
        (LS, 17, 90),
        (FS, 56, 58),
        (OS, 71, 58),
        (PT, 86, 58),
        (SB, 77, 60),
    ] {
        step(
            out,
            format_args!("two{} {a} {b}", Number(mode)),
            mode,
            &flags_with(&[a, b]),
        );
    }
}

// Steps with three conditions set.
fn triples(out: &mut Output, asked: &[(u32, u32, u32, u32)]) {
    for &(mode, a, b, c) in asked {
        step(
            out,
            format_args!("three{} {a} {b} {c}", Number(mode)),
            mode,
            &flags_with(&[a, b, c]),
        );
    }
}

// A tie and then a better one, which clears the mark: each mode and priority that can tie.
const TIES_CLEARED: [(u32, u32, u32, u32); 10] = [
    (SB, 60, 62, 2),
    (SB, 60, 62, 5),
    (SB, 61, 53, 5),
    (SR, 45, 56, 53),
    (LS, 17, 90, 53),
    (LS, 58, 56, 53),
    (FS, 71, 76, 69),
    (FS, 58, 56, 53),
    (OS, 71, 58, 53),
    (PT, 86, 58, 5),
];

// A better one between the two that share a priority, and before them; a worse one behind a tie, before it, and between the two that
// tie; three that tie; two that tie, of which one is open by both its conditions.
const TIES_AMONG_OTHERS: [(u32, u32, u32, u32); 11] = [
    (SB, 60, 62, 61),
    (OS, 71, 58, 69),
    (FS, 71, 76, 17),
    (FS, 71, 76, 58),
    (LS, 17, 90, 58),
    (SR, 45, 56, 87),
    (SB, 61, 53, 60),
    (SB, 61, 62, 53),
    (SB, 60, 62, 63),
    (OS, 71, 58, 56),
    (SB, 77, 60, 62),
];

// Numbers that are no mode, then flags that are too few, too many or above 1. What is asked is one piece each, its number too.
fn refusals(out: &mut Output) {
    for (asked, mode) in [
        ("mode 0", 0),
        ("mode 14", 14),
        ("mode 257", 257),
        ("mode 4294967295", 4294967295),
    ] {
        step(out, asked, mode, &flags_with(&[2]));
    }
    step(out, "flags 90", SB, &[1; 90]);
    step(out, "flags 92", SB, &[1; 92]);
    step(out, "flag 2", SB, &[2; FLAGS]);
}

// The paper's example; equal numbers; the ages on both sides of each condition; the ends.
const AGES: [(u32, u32); 11] = [
    (20, 11),
    (500, 500),
    (503, 500),
    (504, 500),
    (509, 500),
    (510, 500),
    (529, 500),
    (530, 500),
    (1, 1),
    (86_400, 86_400),
    (86_400, 1),
];

// Midnight: the least differences, the ages on both sides of each condition, and a station just behind.
const OVER_MIDNIGHT: [(u32, u32); 11] = [
    (1, 86_400),
    (1, 86_399),
    (2, 86_399),
    (3, 86_399),
    (8, 86_399),
    (9, 86_399),
    (28, 86_399),
    (29, 86_399),
    (11, 20),
    (1, 2),
    (86_399, 86_400),
];

// Numbers that are refused.
const NO_AGES: [(u32, u32); 11] = [
    (0, 0),
    (1, 0),
    (0, 1),
    (0, 86_400),
    (86_400, 0),
    (86_401, 1),
    (1, 86_401),
    (86_401, 86_400),
    (86_401, 86_401),
    (4_294_967_295, 1),
    (4_294_967_295, 4_294_967_295),
];

fn ages(out: &mut Output, asked: &[(u32, u32)]) {
    for &(station, onboard) in asked {
        let a = clock::frame_age(station, onboard);
        let _ = writeln!(
            out,
            "age{} {onboard} {} {} {} {} {}",
            Number(station),
            a.answer,
            a.age,
            a.condition24,
            a.condition26,
            a.condition27
        );
    }
}

fn main() {
    let mut output = Output;
    let out = &mut output;
    for mode in SB..=IS {
        steps(out, mode);
    }
    pairs(out);
    triples(out, &TIES_CLEARED);
    triples(out, &TIES_AMONG_OTHERS);
    refusals(out);
    ages(out, &AGES);
    ages(out, &OVER_MIDNIGHT);
    ages(out, &NO_AGES);
}
