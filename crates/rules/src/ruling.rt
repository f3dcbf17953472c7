// What the rules say of an operation: what a call answers, the ticket counter afterwards, and the effect on the view.
ghost use Rattle.std.specs.Prelude.{◌≡◌};
ghost use Rattle.rules.specs.Ruling.{accepted_with, refused_with};
ghost use Rattle.rules.specs.Meant.{answer_meant};

use crate::effect::Effect;
use crate::refusals::Refusal;
use kinds::Ticket;

// What a call answers, as C gets it: 0 with three numbers, or a refusal's number with zeros.
#[repr(C)]
#[derive(Clone, Copy)]
pub struct Answer {
    pub answer: u32,
    pub first: u32,
    pub second: u32,
    pub third: u32,
}

// The three numbers that a call tells where it is accepted.
#[derive(Clone, Copy)]
pub struct Told {
    pub first: u32,
    pub second: u32,
    pub third: u32,
}

// What an operation does that is accepted.
#[derive(Clone, Copy)]
pub struct Ruling {
    pub told: Told,
    pub counter: Ticket,
    pub effect: Effect,
}

impl Answer {
    pub fn accepted(first: u32, second: u32, third: u32) -> Answer
        ensures { result ≡ accepted_with first second third }
    {
        Answer {
            answer: 0,
            first,
            second,
            third,
        }
    }

    // By the number of a ground, which is any number for whoever asks.
    pub fn refused(reason: u32) -> Answer
        ensures { result ≡ refused_with reason }
    {
        Answer {
            answer: reason,
            first: 0,
            second: 0,
            third: 0,
        }
    }

    // The answer for what a call tells, or for its refusal.
    pub fn of(told: Result<Told, Refusal>) -> Answer
        ensures { result ≡ answer_meant told }
    {
        match told {
            Ok(numbers) => Answer::accepted(numbers.first, numbers.second, numbers.third),
            Err(reason) => Answer::refused(reason.number()),
        }
    }
}
