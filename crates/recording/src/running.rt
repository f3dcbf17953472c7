// One record run on a lent session.
ghost use Rattle.std.specs.Prelude.{◌≡◌};
ghost use Rattle.standing.specs.Standing.{answered, bytes_left};
ghost use Rattle.records.specs.Asked.{meant_by};
ghost use Rattle.recording.specs.Running.{ran_record, bytes_after_record};

use records::asked::Asked;
use records::told::Ran;
use records::{asked, form};
use rules::ruling::Answer;
use session::operations;

// The call that a record asks for is made.
#[tactic(auto, unfolding(standing::specs::Standing::answered, standing::specs::Standing::bytes_left))]
fn make(session: &mut [u8], asked: Asked, flags: &[u8]) -> Answer
    ensures value { result ≡ answered session.old (meant_by asked flags.now) }
    ensures session_after { session.new ≡ bytes_left session.old (meant_by asked flags.now) }
{
    match asked {
        Asked::Request(loco, bytes) => operations::request(session, loco, bytes),
        Asked::Release(loco, ticket) => operations::release(session, loco, ticket),
        Asked::On(loco, ticket, deed) => operations::on(session, loco, ticket, deed, flags),
        Asked::Sos(loco2, ticket2, loco1, ticket1, grid) => {
            operations::sos(session, loco2, ticket2, loco1, ticket1, grid)
        }
        Asked::StepBack(k) => stepback::step_back(session, k),
    }
}

// Runs the first record of `held`, where `before` records came before it. What follows the record is not read. Where `held` begins with no whole
// record, or `before` is the most that a recording has, the answer is 24 and the session stays as it was.
#[tactic(auto, using(records::proofs::FormLaws::record_head, records::proofs::FormLaws::record_whole, records::proofs::FormLaws::run_record, records::proofs::FormLaws::payload_cut), unfolding(crate::specs::Running::ran_record, crate::specs::Running::bytes_after_record, records::specs::Form::call_of))]
pub fn run(session: &mut [u8], held: &[u8], before: u32) -> Ran
    ensures value { result ≡ ran_record session.old held.now before }
    ensures session_after { session.new ≡ bytes_after_record session.old held.now before }
{
    if !form::is_run(held, before) {
        return Ran::not_run(before);
    }
    let kind = form::kind_of(held);
    let length = form::record_length(held);
    let payload = &held[form::HEAD as usize..length as usize];
    let call = asked::asked_by(kind, payload);
    let answer = make(session, call, asked::flags_in(payload));
    Ran::run_with(before, kind, length, answer)
}
