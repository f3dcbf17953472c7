// Changes of a train record: each takes the record and hands the changed record back.
ghost use Rattle.std.specs.Prelude.{◌≡◌};
ghost use Rattle.trains.specs.Changes.{with_position, with_authority, with_danger, with_mode};

use crate::record::{Position, Train};

impl Train {
    pub fn with_position(mut self, front: u32, rear: u32) -> Train
        ensures { result ≡ with_position self front rear }
    {
        self.track.position = Some(Position { front, rear });
        self
    }

    pub fn with_authority(mut self, end: Option<u32>) -> Train
        ensures { result ≡ with_authority self end }
    {
        self.track.granted = end;
        self
    }

    pub fn with_danger(mut self, danger: Option<u32>) -> Train
        ensures { result ≡ with_danger self danger }
    {
        self.track.danger = danger;
        self
    }

    // A transition to another mode. The mode left is kept for Override alone, where the row class depends on it.
    #[tactic(auto, unfolding(crate::specs::Changes::left_for))]
    pub fn with_mode(mut self, mode: u32) -> Train
        ensures { result ≡ with_mode self mode }
    {
        if mode == transitions::names::OV {
            self.left = self.mode;
        } else {
            self.left = 0;
        }
        self.mode = mode;
        self
    }
}
