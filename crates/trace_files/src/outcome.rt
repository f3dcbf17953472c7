// How a check went, as the calling script is told.
ghost use Rattle.std.specs.Prelude.{◌≡◌};
ghost use Rattle.trace_files.specs.Outcome.{digit_of};

#[derive(Clone, Copy)]
pub(crate) enum Outcome {
    Right,
    NotRight,
    NotDone,
}

impl Outcome {
    // The digit that tells it.
    pub(crate) fn digit(self) -> u64
        ensures { result ≡ digit_of self }
    {
        match self {
            Outcome::Right => 0,
            Outcome::NotRight => 1,
            Outcome::NotDone => 2,
        }
    }
}
