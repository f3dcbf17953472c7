// How the move of a file went, as the calling script is told.
ghost use Rattle.std.specs.Prelude.{◌≡◌};
ghost use Rattle.gate_files.specs.Outcome.{digit_of};

#[derive(Clone, Copy)]
pub(crate) enum Outcome {
    AllMoved,
    WasRefused,
    NotDone,
}

impl Outcome {
    // The digit that tells it.
    pub(crate) fn digit(self) -> u64
        ensures { result ≡ digit_of self }
    {
        match self {
            Outcome::AllMoved => 0,
            Outcome::WasRefused => 1,
            Outcome::NotDone => 2,
        }
    }
}
