// What an accepted operation does: a run of slots marked, one row changed, and for an SOS a second one.
ghost use Rattle.std.specs.Prelude.{◌≡◌, false};
ghost use Rattle.rules.specs.Effect.{mark_for, turned, no_change, row_and_run, row_only, no_slot, effect};

use kinds::Slot;
use trains::record::Train;
use trains::sought::ROWS;

// `slots` slots from `start` on, which are taken, or free.
#[derive(Clone, Copy)]
pub struct Run {
    pub start: Slot,
    pub slots: u32,
    pub taken: bool,
}

// A row of the register, counted from 0, and what it becomes. `ROWS` is the number of no row: nothing changes.
// No Option in an effect: `applied` and `settle` take any row, and a log's entry has a byte for it, so the tests of the number would stay beside it.
#[derive(Clone, Copy)]
pub struct Change {
    pub row: usize,
    pub train: Train,
}

// A run is taken, or freed; a row changes, and for an SOS also a second one.
#[derive(Clone, Copy)]
pub struct Effect {
    pub run: Run,
    pub changed: Change,
    pub also: Change,
}

impl Run {
    // No slot.
    fn none() -> Run
        ensures { (result.start ≡ no_slot) × (result.slots ≡ 0) × (result.taken ≡ false) }
    {
        Run {
            start: Slot(0),
            slots: 0,
            taken: false,
        }
    }

    // The mark of each of its slots.
    #[tactic(auto, unfolding(crate::specs::Effect::mark_for))]
    pub fn mark(self) -> u32
        ensures { result ≡ mark_for self.taken }
    {
        u32::from(self.taken)
    }

    // The same slots with the other mark.
    pub fn turned(self) -> Run
        ensures { result ≡ turned self }
    {
        Run {
            taken: !self.taken,
            ..self
        }
    }
}

impl Change {
    fn none() -> Change
        ensures { result ≡ no_change }
    {
        Change {
            row: ROWS,
            train: Train::blank(),
        }
    }
}

impl Effect {
    // One row changed, and a run of slots taken, or freed.
    pub fn on_row_and_run(row: usize, train: Train, run: Run) -> Effect
        ensures { result ≡ row_and_run row train run.start run.slots run.taken }
    {
        Effect {
            run,
            changed: Change { row, train },
            also: Change::none(),
        }
    }

    // One row changed, and no slot marked.
    pub fn on_row(row: usize, train: Train) -> Effect
        ensures { result ≡ row_only row train }
    {
        Effect::on_row_and_run(row, train, Run::none())
    }

    // Two rows changed, and no slot marked.
    pub fn on_two_rows(changed: Change, also: Change) -> Effect
        ensures { result ≡ effect no_slot 0 false changed also }
    {
        Effect {
            run: Run::none(),
            changed,
            also,
        }
    }
}
