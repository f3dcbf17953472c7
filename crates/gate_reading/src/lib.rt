// Gate sub-packets read: everything is judged first, and stored afterwards, so that a refusal changes nothing. In between each gate is kept as the
// one number that its bits are, so that it is loaded once.
#![tactic(auto)]

ghost use Rattle.std.specs.Prelude.{◌≡◌, [], ◌∷◌, ◌+◌, ◌*◌, ◌≤◌, ◌<◌, length, get_or, MatchOption, IfOk};
ghost use Rattle.std.proofs.lemmas.List.Edits.{sets};
ghost use Rattle.numbers.specs.Pieces.{times, unpack};
ghost use Rattle.framing.specs.Refusals.{none, or_else, unless_refused};
ghost use Rattle.framing.specs.Told.{told};
ghost use Rattle.profiles.specs.Profiles.{count_of, rules_refusal};
ghost use Rattle.profiles.specs.Reading.{entries_of, end_refusal, read_refusal, read_answer, read_into};
ghost use Rattle.gates.specs.Gates.{gate_profile, gate_bytes, gate_bits, bits_with, gate_refusal, told_field};
ghost use Rattle.gates.specs.Forms.{layout_of, profile_in};
ghost use Rattle.gate_reading.specs.Steps.{first_gates, digits, spread, IsFirst, kept_gates, HoldsGates, kept_refusal};

use framing::refusals;
use framing::refusals::Refusal;
use gates::forms::Form;
use profiles::EntriesRead;

// The most gates that a count of 5 bits can say.
pub const MOST_COUNTED: usize = 31;

// Keeps the gates from bit 16 on, as many as there is room for, each as the number that its bits are. Its fields are digits of it, counted from the
// lowest, so that the width of the distance moves none.
fn load_gates(s: &[u8], form: Form, kept: &mut [u64])
    requires { length kept.old ≤ 31 }
    ensures { kept.new ≡ sets kept.old 0 (unpack s.now 16 (times (length kept.old) (gate_bits (layout_of form).distance ∷ []))) }
{
    let bits = gates::gate_bits(form.layout().distance);
    let mut p = 16;
    for gate in kept.iter_mut() {
        *gate = fields::read_wide(s, p, bits);
        p += bits;
    }
}

// Judges a gate. What is handed out is the bit of the field at fault, counted from the gate's first bit.
fn judge_gate(gate: u64, distance: u8) -> Result<(), usize>
    ensures { told_field result ≡ gate_refusal distance (digits gate) }
{
    let number = (gate / gates::NUMBER_WEIGHT % 1024) as u32;
    let suffix = (gate / gates::SUFFIX_WEIGHT % 8) as u32;
    let class = (gate / gates::CLASS_WEIGHT % 8) as u32;
    let whistle = (gate % 4) as u32;
    gates::judge_fields(distance, number, suffix, class, whistle)
}

// The first of the gates that is refused. Only this is asked here, so that the compiler need not tell the fields apart.
fn first_refused(kept: &[u64], form: Form) -> Option<usize>
    requires { length kept.now ≤ 31 }
    ensures { MatchOption result (none ≡ rules_refusal (profile_in form) 16 (spread kept.now) (length kept.now)) (IsFirst form kept.now) }
{
    let distance = form.layout().distance;
    for (i, gate) in kept.iter().enumerate() {
        if judge_gate(*gate, distance).is_err() {
            return Some(i);
        }
    }
    None
}

// Judges the gates, of which the first stands at bit 16.
fn judge_gates(kept: &[u64], form: Form) -> Result<(), Refusal>
    requires { length kept.now ≤ 31 }
    ensures { told result ≡ rules_refusal (profile_in form) 16 (spread kept.now) (length kept.now) }
{
    let Some(i) = first_refused(kept, form) else {
        return Ok(());
    };
    let distance = form.layout().distance;
    match judge_gate(kept[i], distance) {
        Ok(()) => Ok(()),
        Err(bit) => Err(Refusal::NotAllowed(gates::bits_of(distance, i as u32) + bit)),
    }
}

// Keeps the gates of a form that a sub-packet says, for whoever does not want them in bytes.
pub fn keep_gates(form: Form, s: &[u8], kept: &mut [u64; MOST_COUNTED])
    ensures { (kept.new ≡ kept_gates form s.now kept.old) × HoldsGates form s.now kept.new }
{
    load_gates(s, form, &mut kept[..gates::count_of(s)]);
}

// Judges the gates that were kept.
pub fn judge_kept(form: Form, s: &[u8], kept: &[u64; MOST_COUNTED]) -> Result<(), Refusal>
    ensures { told result ≡ kept_refusal form s.now kept.now }
{
    judge_gates(&kept[..gates::count_of(s)], form)
}

// Stores the 9 bytes of a gate from byte `at` on.
fn fill_gate(gate: u64, out: &mut [u8], at: usize)
    requires { at + gate_bytes ≤ length out.old }
    ensures { out.new ≡ sets out.old at (digits gate) }
{
    let far = gate / gates::DISTANCE_WEIGHT;
    let number = gate / gates::NUMBER_WEIGHT % 1024;
    out[at] = (far / 256 % 256) as u8;
    out[at + 1] = (far % 256) as u8;
    out[at + 2] = (number / 256) as u8;
    out[at + 3] = (number % 256) as u8;
    out[at + 4] = (gate / gates::SUFFIX_WEIGHT % 8) as u8;
    out[at + 5] = (gate / gates::MANNING_WEIGHT % 2) as u8;
    out[at + 6] = (gate / gates::CLASS_WEIGHT % 8) as u8;
    out[at + 7] = (gate / gates::WHISTLING_WEIGHT % 2) as u8;
    out[at + 8] = (gate % 4) as u8;
}

// Stores the bytes of the gates.
fn fill_gates(kept: &[u64], out: &mut [u8])
    requires { (length kept.now ≤ 31) × (gate_bytes * length kept.now ≤ length out.old) }
    ensures { out.new ≡ sets out.old 0 (spread kept.now) }
{
    for (i, gate) in kept.iter().enumerate() {
        fill_gate(*gate, out, gates::GATE_BYTES * i);
    }
}

// Reads n gates from bit 16 on into `out`. Where there is none, nothing is left that could refuse.
fn take_gates(s: &[u8], form: Form, n: usize, out: &mut [u8]) -> Result<(), Refusal>
    requires { n ≤ 31 }
    ensures value { told result ≡ or_else (rules_refusal (profile_in form) 16 (first_gates (layout_of form).distance s.now n) n) (end_refusal s.now (bits_with (layout_of form).distance n) (gate_bytes * n) (length out.old)) }
    ensures out_after { out.new ≡ unless_refused (told result).number (sets out.old 0 (first_gates (layout_of form).distance s.now n)) out.old }
{
    if n == 0 {
        return Ok(());
    }
    let mut room = [0u64; MOST_COUNTED];
    let kept = &mut room[..n];
    load_gates(s, form, kept);
    judge_gates(kept, form)?;
    let bits = gates::bits_of(form.layout().distance, n as u32) as u32;
    profiles::judge_end(s, bits, gates::GATE_BYTES * n, out.len())?;
    fill_gates(kept, out);
    Ok(())
}

// Reads the sub-packet into `out`, and answers how many gates it has.
fn read_packet(s: &[u8], out: &mut [u8]) -> Result<usize, Refusal>
    ensures value { told result ≡ read_refusal gate_profile s.now (length out.old) }
    ensures count { IfOk result (λ n. n ≡ count_of gate_profile s.now) }
    ensures out_after { out.new ≡ unless_refused (told result).number (sets out.old 0 (entries_of gate_profile s.now)) out.old }
{
    let count = gates::count_of(s);
    let bits = gates::bits_of(gates::DISTANCE_WIDTH, count as u32) as u32;
    profiles::judge_shape(s, gates::GATE_TYPE, bits)?;
    take_gates(s, Form::New, count, out)?;
    Ok(count)
}

// Reads the gate sub-packet that `s` begins with into `out`, 9 bytes for each gate. What follows the sub-packet is ignored, and what lies
// behind the gates in `out` stays.
pub fn read_gates(s: &[u8], out: &mut [u8]) -> EntriesRead
    ensures value { result ≡ read_answer gate_profile s.now out.old }
    ensures out_after { out.new ≡ read_into gate_profile s.now out.old }
{
    match read_packet(s, out) {
        Ok(entries) => EntriesRead {
            answer: refusals::ACCEPTED,
            place: refusals::NOWHERE,
            entries,
            bytes: framing::length_of(s),
        },
        Err(refusal) => EntriesRead::from(refusal),
    }
}
