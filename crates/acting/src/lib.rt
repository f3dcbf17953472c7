// What each deed does to the train that is named. A deed takes the train and gives what is told and the train afterwards; it never sees a row.
#![tactic(auto)]

ghost use Rattle.std.specs.Prelude.{◌≡◌};
ghost use Rattle.trains.specs.declared.record.Train.{Train};
ghost use Rattle.modes.specs.Next.{next_step};
ghost use Rattle.rules.specs.Refusals.{number_of};
ghost use Rattle.rules.specs.Deeds.{meant, end_answer, changed_if, mode_stepped, done, deed_ground, deed_done, end_asked};
ghost use Rattle.rules.specs.Ruling.{ruled};
ghost use Rattle.rules.specs.Meant.{accepted_by, answer_meant, changed_meant, named_meant, ruling_meant};

use kinds::{Ticket, ranges};
use rules::deeds::{Changed, Deed};
use rules::effect::Effect;
use rules::named::Named;
use rules::refusals::Refusal;
use rules::ruling::{Ruling, Told};
use trains::record::Train;

// What is told of a train's end: 1 and the effective end, or zeros for none.
#[tactic(auto, unfolding(rules::specs::Deeds::end_answer))]
fn end_told(end: Option<u32>) -> Told
    ensures { accepted_by result ≡ end_answer end }
{
    match end {
        None => Told {
            first: 0,
            second: 0,
            third: 0,
        },
        Some(location) => Told {
            first: 1,
            second: location,
            third: 0,
        },
    }
}

// Where the test holds, the train afterwards; else refused on a ground.
#[tactic(auto, unfolding(rules::specs::Deeds::changed_if))]
fn given(test: bool, reason: Refusal, after: Train) -> Result<Changed, Refusal>
    ensures { (before : Train) → changed_meant before result ≡ changed_if test (number_of reason) before after }
{
    if !test {
        return Err(reason);
    }
    Ok(Changed {
        told: end_told(after.end()),
        train: after,
    })
}

// A mode step; one that stays changes nothing. `Step` is what C gets, so that its numbers say whether it is refused, and whether it stays.
#[tactic(auto, unfolding(rules::specs::Deeds::mode_stepped, rules::specs::Deeds::step_taken))]
fn step(train: Train, flags: &[u8]) -> Result<Changed, Refusal>
    ensures { changed_meant train result ≡ mode_stepped train (next_step train.mode flags.now) }
{
    let step = modes::next_mode(train.mode, flags);
    if step.answer != 0 {
        return Err(Refusal::BadFlags);
    }
    let told = Told {
        first: step.mode,
        second: step.priority,
        third: step.tie,
    };
    if step.priority == 0 {
        return Ok(Changed { told, train });
    }
    Ok(Changed {
        told,
        train: train.with_mode(step.mode),
    })
}

// What each deed does to a train.
fn act(deed: Deed, flags: &[u8], train: Train) -> Result<Changed, Refusal>
    ensures { changed_meant train result ≡ done (meant deed flags.now) train }
{
    match deed {
        Deed::Flags => step(train, flags),
        Deed::Position(front, rear) => given(
            ranges::is_position(front, rear),
            Refusal::BadPosition,
            train.with_position(front, rear),
        ),
        Deed::Authority(end) => given(
            ranges::is_none_or_location(end),
            Refusal::BadLocation,
            train.with_authority(ranges::location_from(end)),
        ),
        Deed::Danger(location) => given(
            ranges::is_none_or_location(location),
            Refusal::BadLocation,
            train.with_danger(ranges::location_from(location)),
        ),
        Deed::Clear(other) => given(
            train.has_order(other),
            Refusal::NoSuchOrder,
            train.order_cleared(other),
        ),
    }
}

// A deed on a train that is named: one row is changed.
pub fn on(named: Named, deed: Deed, flags: &[u8], counter: Ticket) -> Result<Ruling, Refusal>
    ensures { ruling_meant counter result ≡ ruled counter (deed_ground (named_meant named) (done (meant deed flags.now) (named_meant named).train))
        (deed_done counter (named_meant named) (done (meant deed flags.now) (named_meant named).train)) }
{
    let live = named.live_train()?;
    let changed = act(deed, flags, live.train)?;
    Ok(Ruling {
        told: changed.told,
        counter,
        effect: Effect::on_row(live.row, changed.train),
    })
}

// The effective end of a named train, asked: nothing is changed.
pub fn end_asked(named: Named) -> Result<Told, Refusal>
    ensures { answer_meant result ≡ end_asked (named_meant named) }
{
    let asked = named.live_train()?;
    Ok(end_told(asked.train.end()))
}
