// What running a record tells.
ghost use Rattle.std.specs.Prelude.{◌≡◌};
ghost use Rattle.records.specs.Told.{not_run, run_with};

use rules::refusals::Refusal;
use rules::ruling::Answer;

// Its line's six numbers, and the bytes that it used.
#[repr(C)]
#[derive(Clone, Copy)]
pub struct Ran {
    pub number: u64,
    pub kind: u32,
    pub answer: u32,
    pub first: u32,
    pub second: u32,
    pub third: u32,
    pub used: u32,
}

impl Ran {
    // Where `before` records came before it.
    pub fn run_with(before: u32, kind: u32, length: u32, answer: Answer) -> Ran
        ensures { result ≡ run_with before kind length answer }
    {
        Ran {
            number: u64::from(before) + 1,
            kind,
            answer: answer.answer,
            first: answer.first,
            second: answer.second,
            third: answer.third,
            used: length,
        }
    }

    #[tactic(auto, unfolding(rules::specs::Refusals::number_of))]
    pub fn not_run(before: u32) -> Ran
        ensures { result ≡ not_run before }
    {
        Ran::run_with(before, 0, 0, Answer::refused(Refusal::BadRecord.number()))
    }
}
