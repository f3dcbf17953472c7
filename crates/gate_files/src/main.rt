// Moves a file of gate sub-packets from one form to the other: reads it from standard input, and writes each sub-packet to standard output once it is
// moved. The program's word says which way: forward, from the old form to the new one, or back. How it went is told on descriptor 3.
#![tactic(auto)]

mod files;
mod outcome;
mod telling;

use gates::forms::Form;
use std::env::Env;

// The form that is read, by the program's word.
fn asked(rt: &HostRuntime) -> Option<Form> {
    let mut word = io::buffer();
    let n = rt.arg(1, &mut word).ok()?;
    match &word[..n] {
        b"forward" => Some(Form::Old),
        b"back" => Some(Form::New),
        _ => None,
    }
}

fn main(rt: HostRuntime) {
    let Some(form) = asked(&rt) else {
        telling::unclear(&rt);
        return;
    };
    let mut input = io::large_buffer();
    let file = files::move_all(&mut rt.stdin(), &mut rt.stdout(), form, &mut input);
    telling::finish(&rt, file);
}
