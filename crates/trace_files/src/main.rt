// Checks a vendor's mode trace: reads it from standard input, and tells on standard output whether it is right, or which entry is the first that is not.
// How it went is told on descriptor 3 too.
#![tactic(auto)]

mod answer;
mod files;
mod outcome;
mod telling;

fn main(rt: HostRuntime) {
    let mut input = io::large_buffer();
    let file = files::check_all(&mut rt.stdin(), &mut input);
    telling::finish(&rt, file, holding::part(&input, file.held));
}
