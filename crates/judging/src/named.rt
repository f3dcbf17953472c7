// The train that a loco and a ticket name together, in the lent bytes.
ghost use Rattle.std.specs.Prelude.{◌≡◌};
ghost use Rattle.rules.specs.Named.{named_in};
ghost use Rattle.rules.specs.Meant.{named_meant};
ghost use Rattle.store.specs.Stands.{view_of};

use kinds::{Loco, Ticket};
use rules::named::{Live, Named};
use store::view;

pub(crate) fn find(s: &[u8], loco: Loco, ticket: Ticket) -> Named
    ensures { named_meant result ≡ named_in loco ticket (view_of s.now) }
{
    let Some(row) = view::find(s, loco, ticket) else {
        return Named { loco, live: None };
    };
    let train = view::train(s, row);
    Named {
        loco,
        live: Some(Live { row, train }),
    }
}
