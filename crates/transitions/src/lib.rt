// The 80 transitions between the modes (document 01, "Modes"), each by its bytes, those of a mode together.
#![tactic(auto)]

pub mod names;
mod table;

ghost use Rattle.std.specs.Prelude.{◌≡◌};
ghost use Rattle.transitions.specs.Held.{table_bytes, first_of, leaves_at, leaving_bytes};

const COUNT: usize = 80;

// A transition is the target, the priority and the conditions, filled up with zeros: the longest list has nine. It stays a row of bytes, since a struct
// with names for its fields is no plainer: 80 of them written out no longer read as document 01 does, a line for each transition.
pub const BYTES: usize = 11;

pub const TARGET: usize = 0;

pub const PRIORITY: usize = 1;

pub const CONDITIONS: usize = 2;

pub type Transition = [u8; BYTES];

pub type Transitions = [Transition; COUNT];

// The whole table.
pub fn all() -> &'static Transitions
    ensures { result.now ≡ table_bytes }
{
    &table::TRANSITIONS
}

// Where the transitions of a mode start; those of a number above the last mode's would start behind the last one.
pub fn first(mode: u32) -> usize
    ensures { result ≡ first_of mode }
{
    match table::FIRST.get(mode as usize) {
        Some(&start) => start,
        None => COUNT,
    }
}

// Does transition t, counted from 0, leave the mode? Those of a mode stand from its first to the next mode's.
pub fn leaves_from(mode: u32, t: usize) -> bool
    ensures { result ≡ leaves_at mode t }
{
    // no transition leaves what is no mode, and mode + 1 must be a number
    names::is_mode(mode) && (first(mode)..first(mode + 1)).contains(&t)
}

// The transitions that leave a mode, in the order of the table; none leaves what is no mode.
pub fn leaving(mode: u32) -> &'static [Transition]
    ensures { result.now ≡ leaving_bytes mode }
{
    if !names::is_mode(mode) {
        return &[];
    }
    &all()[first(mode)..first(mode + 1)]
}
