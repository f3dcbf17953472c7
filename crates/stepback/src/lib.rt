// STEP-BACK on a lent session: k is judged against the entries kept, and the latest k are undone.
#![tactic(auto)]

ghost use Rattle.std.specs.Prelude.{◌≡◌};
ghost use Rattle.stepback.specs.Back.{back_answer, back_after};

use ledger::back;
use rules::refusals::Refusal;
use rules::ruling::Answer;
use store::{layout, view};

// Steps back by the latest k entries kept. The ticket counter stays.
#[tactic(auto, unfolding(rules::specs::Refusals::number_of, replay::specs::Demand3::depth, crate::specs::Back::of_session, crate::specs::Back::back_answer, crate::specs::Back::back_after, ledger::specs::Back::stepped_in))]
pub fn step_back(session: &mut [u8], k: u32) -> Answer
    ensures value { result ≡ back_answer session.old k }
    ensures session_after { session.new ≡ back_after session.old k }
{
    if !layout::is_session(session) {
        return Answer::refused(Refusal::WrongLength.number());
    }
    let kept = view::kept(session);
    let steps = k as usize;
    if kept < steps {
        return Answer::refused(Refusal::TooFarBack.number());
    }
    back::step_back(session, steps);
    Answer::accepted((kept - steps) as u32, 0, 0)
}
