// SOS between L1 and L2: each train's order by the cell of the grid, under the other train's ticket. All is judged before anything is changed.
#![tactic(auto)]

ghost use Rattle.std.specs.Prelude.{◌≡◌, Bool, eqb};
ghost use Rattle.trains.specs.Orders.{has_place};
ghost use Rattle.rules.specs.Refusals.{no_position, no_place};
ghost use Rattle.rules.specs.Raising.{share_ground, share_taken, train_class, trains_ground, sos_ground, raised};
ghost use Rattle.rules.specs.Ruling.{ruled};
ghost use Rattle.rules.specs.Meant.{named_meant, both_live, ground_meant, side_meant, ruling_meant};

use grids::{cells, classes};
use kinds::{Ticket, ranges};
use rules::effect::{Change, Effect};
use rules::named::{Live, Named};
use rules::refusals::Refusal;
use rules::ruling::{Ruling, Told};
use sos::shares;
use sos::shares::Share;
use trains::record::Train;

const NA: u32 = 0;

// Was a position that the share needs never reported?
#[tactic(auto, unfolding(rules::specs::Raising::share_ground, rules::specs::Ruling::when))]
fn lacks_position(share: Share) -> bool
    ensures { (place : Bool) → result ≡ eqb (share_ground share place) no_position }
{
    match share {
        Share::NoPosition => true,
        Share::Nothing | Share::Order(_) => false,
    }
}

// Has the train no place for the share's order under the other's ticket?
#[tactic(auto, unfolding(rules::specs::Raising::share_ground, rules::specs::Ruling::when))]
fn lacks_place(share: Share, other: Ticket, train: Train) -> bool
    ensures { result ≡ eqb (share_ground share (has_place train other)) no_place }
{
    match share {
        Share::Order(_) => !train.has_place(other),
        Share::Nothing | Share::NoPosition => false,
    }
}

// The train with its share taken, under the other's ticket.
#[tactic(auto, unfolding(rules::specs::Raising::share_taken))]
fn take_share(share: Share, other: Ticket, train: Train) -> Train
    ensures { result ≡ share_taken share other train }
{
    match share {
        Share::Order(limit) => train.with_order(other, limit),
        Share::Nothing | Share::NoPosition => train,
    }
}

fn class_of(train: Train) -> u32
    ensures { result ≡ train_class train }
{
    classes::class_of(train.mode, train.left)
}

// The grounds of two live trains, in the order of the checks.
fn judge(
    grid: u32,
    cell: u32,
    l2: Live,
    share2: Share,
    l1: Live,
    share1: Share,
) -> Result<(), Refusal>
    ensures { ground_meant result ≡ trains_ground grid cell (side_meant l2 share2 l1.train.ticket) (side_meant l1 share1 l2.train.ticket) }
{
    if l2.row == l1.row {
        return Err(Refusal::SameTrain);
    }
    if !ranges::is_grid(grid) {
        return Err(Refusal::BadGrid);
    }
    if (class_of(l2.train) == 0) | (class_of(l1.train) == 0) {
        return Err(Refusal::NoClass);
    }
    if cell == NA {
        return Err(Refusal::NotApplicable);
    }
    if lacks_position(share2) | lacks_position(share1) {
        return Err(Refusal::NoPosition);
    }
    if lacks_place(share2, l1.train.ticket, l2.train)
        | lacks_place(share1, l2.train.ticket, l1.train)
    {
        return Err(Refusal::NoPlace);
    }
    Ok(())
}

// Both trains that are named, or the ground on which a name is refused.
#[tactic(auto, unfolding(rules::specs::Meant::both_live))]
fn both(l2: Named, l1: Named) -> Result<(Live, Live), Refusal>
    ensures { result ≡ both_live l2 l1 }
{
    if !(l2.loco.in_range() & l1.loco.in_range()) {
        return Err(Refusal::BadLoco);
    }
    match (l2.live, l1.live) {
        (Some(live2), Some(live1)) => Ok((live2, live1)),
        _ => Err(Refusal::NoLiveTrain),
    }
}

// SOS between two trains that were named: their names are judged, the cell and the shares are looked up once, then all else is judged.
pub fn raise(
    margin: u32,
    grid: u32,
    counter: Ticket,
    l2: Named,
    l1: Named,
) -> Result<Ruling, Refusal>
    ensures { ruling_meant counter result ≡ ruled counter (sos_ground margin grid (named_meant l2) (named_meant l1))
        (raised margin grid counter (named_meant l2) (named_meant l1)) }
{
    let (live2, live1) = both(l2, l1)?;
    let (t2, t1) = (live2.train, live1.train);
    let cell = cells::cell(grid, class_of(t2));
    let measure = cells::measure(cell);
    let share2 = shares::share_of_l2(measure, t1, t2, margin);
    let share1 = shares::share_of_l1(measure, t1);
    judge(grid, cell, live2, share2, live1, share1)?;
    let changed = Change {
        row: live2.row,
        train: take_share(share2, t1.ticket, t2),
    };
    let also = Change {
        row: live1.row,
        train: take_share(share1, t2.ticket, t1),
    };
    Ok(Ruling {
        told: Told {
            first: measure,
            second: cells::aspect(cell),
            third: 0,
        },
        counter,
        effect: Effect::on_two_rows(changed, also),
    })
}
