// What a person and the calling script are told of a file that was moved: what stopped it on standard error, and the outcome on a descriptor of its own.
ghost use Rattle.std.specs.Prelude.{◌≡◌};
ghost use Rattle.gate_files.specs.Outcome.{outcome_of};

use crate::files::{File, Refused};
use crate::outcome::Outcome;

// Where the outcome is told, as a digit. std has no handle for this descriptor, so the kit's `io` writes it.
const OUTCOME_FILENO: i32 = 3;

fn tell(outcome: Outcome) {
    io::print_decimal(OUTCOME_FILENO, outcome.digit());
}

// No way that is known was asked for.
pub(crate) fn unclear(rt: &impl Eprint) {
    let _ = eprintln!(rt; "bench: gates are moved forward or back; give one of the two words");
    tell(Outcome::NotDone);
}

// Why, and what to look at. Only bytes can be missing: there is room for every sub-packet.
fn reason(number: u32) -> &'static str {
    match number {
        1 => "the file ends within it; give the whole file",
        2 => "its type is not 3, so it is no gate sub-packet; see where the one before it ends",
        3 =>
            "its length is not that of so many gates, or they are more than 28, the most of the new form; see whether the file has the other form already, or split the list",
        4 =>
            "a gate's number is not 1 to 1022, or its suffix, class or whistling type is a spare value; correct the field at the place",
        5 =>
            "the bits that fill up its last byte are not zero; clear them, or see whether the file is damaged",
        _ =>
            "a distance is no multiple of 10 or above 5,110 metres; keep this list in the new form, or change the distance",
    }
}

fn say_refused(rt: &impl Eprint, file: File, refused: Refused) {
    let packet = u64::from(file.packets) + 1;
    let used = file.used;
    let Refused { number, place } = refused;
    let reason = reason(number);
    let _ = eprintln!(rt;
        "bench: sub-packet {packet} at byte {used} is refused: answer {number}, place {place}: {reason}"
    );
}

// Says what stopped the file, if anything did, and gives the outcome.
#[tactic(auto, unfolding(crate::specs::Outcome::outcome_of))]
fn outcome(rt: &impl Eprint, file: File) -> Outcome
    ensures { result ≡ outcome_of file }
{
    if file.held.failed {
        let _ = eprintln!(rt;
            "bench: the file cannot be read to its end; see whether it is a file, and its disk is sound"
        );
        return Outcome::NotDone;
    }
    if !file.writable {
        let _ = eprintln!(rt;
            "bench: the moved sub-packets cannot be written; see whether there is room, and whether the output is still read"
        );
        return Outcome::NotDone;
    }
    if !file.over {
        let used = file.used;
        let _ = eprintln!(rt;
            "bench: 4,294,967,295 sub-packets are moved, the most at a time; move what stands in the file from byte {used} on, if anything does, by itself"
        );
        return Outcome::NotDone;
    }
    if let Some(refused) = file.refused {
        say_refused(rt, file, refused);
        return Outcome::WasRefused;
    }
    Outcome::AllMoved
}

pub(crate) fn finish(rt: &impl Eprint, file: File) {
    tell(outcome(rt, file));
}
