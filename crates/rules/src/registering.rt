// Trains come and go: what a grant and a release do.
ghost use Rattle.std.specs.Prelude.{◌≡◌};
ghost use Rattle.rules.specs.Named.{name_ground};
ghost use Rattle.rules.specs.Registering.{granted, released};
ghost use Rattle.rules.specs.Ruling.{ruled};
ghost use Rattle.rules.specs.Meant.{named_meant, ruling_by, ruling_meant};

use crate::effect::{Effect, Run};
use crate::named::Named;
use crate::refusals::Refusal;
use crate::ruling::{Ruling, Told};
use kinds::{Loco, Slot, Ticket};
use trains::record::Train;

// A train granted: in a row, under a ticket, which is the counter afterwards, with its slots taken.
#[tactic(auto, unfolding(crate::specs::Registering::granted))]
pub fn grant(loco: Loco, slots: u32, ticket: Ticket, row: usize, start: Slot) -> Ruling
    ensures { ruling_by result ≡ granted loco slots ticket row start }
{
    let train = Train::fresh(loco, ticket, start, slots);
    Ruling {
        told: Told {
            first: ticket.0,
            second: start.0,
            third: slots,
        },
        counter: ticket,
        effect: Effect::on_row_and_run(
            row,
            train,
            Run {
                start,
                slots,
                taken: true,
            },
        ),
    }
}

// The row is blank, and its slots are free at once.
#[tactic(auto, unfolding(crate::specs::Meant::live_train, crate::specs::Named::name_ground, crate::specs::Ruling::unless, crate::specs::Ruling::ruled, crate::specs::Registering::released))]
pub fn release(named: Named, counter: Ticket) -> Result<Ruling, Refusal>
    ensures { ruling_meant counter result ≡ ruled counter (name_ground (named_meant named) 0) (released counter (named_meant named)) }
{
    let live = named.live_train()?;
    let freed = Run {
        start: live.train.start,
        slots: live.train.slots,
        taken: false,
    };
    Ok(Ruling {
        told: Told {
            first: 0,
            second: 0,
            third: 0,
        },
        counter,
        effect: Effect::on_row_and_run(live.row, Train::blank(), freed),
    })
}
