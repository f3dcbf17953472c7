// The mode step (document 01, "Modes"): of the open transitions of a mode, the one of the best priority, by the lowest target.
#![tactic(auto)]

mod flags;
pub mod plain;

ghost use Rattle.std.specs.Prelude.{◌≡◌};
ghost use Rattle.transitions.specs.Held.{leaving_bytes, stated};
ghost use Rattle.modes.specs.Flags.{any_set};
ghost use Rattle.modes.specs.Next.{accepted, choose, opens, refuses, refused, next_step};
ghost use Rattle.modes.specs.Kept.{kept, considered};

use std::cmp::Ordering;
use transitions::{Transition, names};

// The answer to a number that is no mode, and to flags that are not 91 of 0 or 1.
pub const OUT_OF_RANGE: u32 = 17;

// What `kb_next_mode` hands to C, which has no Result and no Option: the answer and the tie mark are numbers, and zeros stand on a refusal.
#[repr(C)]
#[derive(Clone, Copy)]
pub struct Step {
    pub answer: u32,
    pub mode: u32,
    pub priority: u32,
    pub tie: u32,
}

// Are these no mode, or not the flags of all conditions, each 0 or 1? A Result is no plainer: `?` cannot leave a function that gives a Step.
fn is_refused(mode: u32, flags: &[u8]) -> bool
    ensures { result ≡ refuses mode flags.now }
{
    !names::is_mode(mode) || flags.len() != flags::FLAGS || flags::has_bad_flag(flags)
}

fn refused() -> Step
    ensures { result ≡ refused }
{
    Step {
        answer: OUT_OF_RANGE,
        mode: 0,
        priority: 0,
        tie: 0,
    }
}

// Is one of the conditions of a transition set? They stand up to the first zero.
fn is_open(flags: &[u8], transition: &Transition) -> bool
    ensures { result ≡ any_set flags.now (stated transition.now) }
{
    for &n in &transition[transitions::CONDITIONS..] {
        if n == 0 {
            return false;
        }
        if numbers::byte_at(flags, usize::from(n) - 1) == 1 {
            return true;
        }
    }
    false
}

fn accept(mode: u32, priority: u32, tie: u32) -> Step
    ensures { result ≡ accepted mode priority tie }
{
    Step {
        answer: 0,
        mode,
        priority,
        tie,
    }
}

// The best so far, after one more open transition.
fn keep(best: Option<Step>, target: u32, priority: u32) -> Step
    ensures { result ≡ kept best target priority }
{
    let Some(best) = best else {
        return accept(target, priority, 0);
    };
    match priority.cmp(&best.priority) {
        Ordering::Less => accept(target, priority, 0),
        Ordering::Equal => accept(best.mode.min(target), priority, 1),
        Ordering::Greater => best,
    }
}

// The best so far, after one more transition, which counts only if it is open.
fn consider(flags: &[u8], transition: &Transition, best: Option<Step>) -> Option<Step>
    ensures { result ≡ considered flags.now best transition.now }
{
    if !is_open(flags, transition) {
        return best;
    }
    let target = u32::from(transition[transitions::TARGET]);
    let priority = u32::from(transition[transitions::PRIORITY]);
    Some(keep(best, target, priority))
}

// The step of the mode that these transitions leave.
fn walk(flags: &[u8], mode: u32, leaving: &[Transition]) -> Step
    requires { leaving.now ≡ leaving_bytes mode }
    ensures { result ≡ choose mode (opens mode flags.now) }
{
    let mut best = None;
    for transition in leaving {
        best = consider(flags, transition, best);
    }
    best.unwrap_or(accept(mode, 0, 0))
}

// The next mode, its priority and the tie mark; the mode itself with priority 0 where no transition is open.
pub fn next_mode(mode: u32, flags: &[u8]) -> Step
    ensures { result ≡ next_step mode flags.now }
{
    if is_refused(mode, flags) {
        return refused();
    }
    // only the transitions of the one mode are walked
    walk(flags, mode, transitions::leaving(mode))
}
