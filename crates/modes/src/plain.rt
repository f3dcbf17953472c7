// The plain engine (document 02, T-09): the mode step as it is read on paper. It tries all 80 transitions, one after another in the order of
// the paper, and keeps the best so far. With the engine in use it shares what is refused; the best one it finds by itself.
ghost use mathlib.Core.{Path.◌≡◌, Bool.false, Bool.not, Bool.◌&&◌, List.[], List.map};
ghost use Rattle.std.specs.Prelude.{◌<◌, None};
ghost use lib.{Dec.eqb, ListN.get_or};
ghost use Rattle.transitions.specs.Table.{transition_count, table};
ghost use Rattle.transitions.specs.Held.{table_bytes};
ghost use Rattle.modes.specs.Flags.{is_set};
ghost use Rattle.modes.specs.Plain.{so_far, weighed, counts, walked, told, plain_step};

use crate::{Step, is_refused, refused};
use std::cmp::Ordering;
use transitions::{Transition, leaves_from};

// The best so far, and whether another ties with it.
#[derive(Clone, Copy)]
struct Best {
    mode: u32,
    priority: u32,
    tie: bool,
}

fn so_far(mode: u32, priority: u32, tie: bool) -> Best
    ensures { result ≡ so_far mode priority tie }
{
    Best {
        mode,
        priority,
        tie,
    }
}

// The best so far, after one more transition that counts. The smaller number is the better priority.
fn weigh(best: Option<Best>, target: u32, priority: u32) -> Best
    ensures { result ≡ weighed best target priority }
{
    let Some(best) = best else {
        return so_far(target, priority, false);
    };
    match priority.cmp(&best.priority) {
        Ordering::Less => so_far(target, priority, false),
        // a tie: the lowest target, and the mark
        Ordering::Equal => so_far(best.mode.min(target), priority, true),
        Ordering::Greater => best,
    }
}

// Is a condition set? There is none of number 0: zeros fill up a transition.
fn is_set(flags: &[u8], condition: usize) -> bool
    ensures { result ≡ not (eqb condition 0) && is_set flags.now condition }
{
    condition != 0 && numbers::byte_at(flags, condition - 1) == 1
}

// Does transition t count? It does where it leaves the mode and one of its conditions is set.
fn counts(mode: u32, flags: &[u8], t: usize, transition: &Transition) -> bool
    requires { (transition.now ≡ get_or table_bytes t []) × (t < transition_count) }
    ensures { result ≡ get_or (map (counts mode flags.now) table) t false }
{
    let mut conditions = transition[transitions::CONDITIONS..].iter();
    leaves_from(mode, t) && conditions.any(|n| is_set(flags, usize::from(*n)))
}

// The best so far, after the whole table.
fn walk(mode: u32, flags: &[u8]) -> Option<Best>
    ensures { result ≡ walked mode flags.now None table }
{
    let mut best = None;
    for (t, transition) in transitions::all().iter().enumerate() {
        if counts(mode, flags, t, transition) {
            let target = u32::from(transition[transitions::TARGET]);
            let priority = u32::from(transition[transitions::PRIORITY]);
            best = Some(weigh(best, target, priority));
        }
    }
    best
}

// The step that the best so far tells, or its absence: then the mode stays, with priority 0.
fn tell(mode: u32, best: Option<Best>) -> Step
    ensures { result ≡ told mode best }
{
    let Some(best) = best else {
        return Step {
            answer: 0,
            mode,
            priority: 0,
            tie: 0,
        };
    };
    Step {
        answer: 0,
        mode: best.mode,
        priority: best.priority,
        tie: u32::from(best.tie),
    }
}

// The same step as the one of the engine in use, found by the walk.
pub fn next_mode(mode: u32, flags: &[u8]) -> Step
    ensures { result ≡ plain_step mode flags.now }
{
    if is_refused(mode, flags) {
        return refused();
    }
    tell(mode, walk(mode, flags))
}
