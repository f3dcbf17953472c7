// The train that a loco and a ticket name together.
ghost use Rattle.std.specs.Prelude.{◌≡◌};
ghost use Rattle.rules.specs.Meant.{live_train};

use crate::refusals::Refusal;
use kinds::Loco;
use trains::record::Train;

// A live train, and its row.
#[derive(Clone, Copy)]
pub struct Live {
    pub row: usize,
    pub train: Train,
}

// The loco that was named, and the live train that has it and the ticket, if there is one.
#[derive(Clone, Copy)]
pub struct Named {
    pub loco: Loco,
    pub live: Option<Live>,
}

impl Named {
    // The train that is named, or the ground on which its name is refused.
    #[tactic(auto, unfolding(crate::specs::Meant::live_train))]
    pub fn live_train(self) -> Result<Live, Refusal>
        ensures { result ≡ live_train self }
    {
        if !self.loco.in_range() {
            return Err(Refusal::BadLoco);
        }
        self.live.ok_or(Refusal::NoLiveTrain)
    }
}
