// The kinds of record, each with its number and the length of its payload.
ghost use Rattle.std.specs.Prelude.{◌≡◌, ◌<◌, ◌≤◌, MatchOption};
ghost use Rattle.records.specs.Kinds.{among, kinds, no_kind, payload_length};
ghost use Rattle.records.specs.Numbered.{number_of};

#[derive(Clone, Copy)]
pub enum Kind {
    Request,
    Release,
    Flags,
    Position,
    Authority,
    Danger,
    Sos,
    Clear,
    StepBack,
}

impl Kind {
    // The kind with a number, where there is one.
    #[tactic(auto, unfolding(crate::specs::Kinds::among))]
    pub fn numbered(number: u32) -> Option<Kind>
        ensures { MatchOption result (among kinds number ≡ no_kind) (λ kind. number ≡ number_of kind) }
    {
        match number {
            1 => Some(Kind::Request),
            2 => Some(Kind::Release),
            3 => Some(Kind::Flags),
            4 => Some(Kind::Position),
            5 => Some(Kind::Authority),
            6 => Some(Kind::Danger),
            7 => Some(Kind::Sos),
            8 => Some(Kind::Clear),
            9 => Some(Kind::StepBack),
            _ => None,
        }
    }

    // The bytes of its payload.
    #[tactic(auto, unfolding(crate::specs::Kinds::among, crate::specs::Kinds::payload_length))]
    pub fn payload_length(self) -> u32
        ensures value { result ≡ payload_length (number_of self) }
        ensures some { 0 < result }
        ensures most { result ≤ 97 }
    {
        match self {
            Kind::Request | Kind::Release => 6,
            Kind::Flags => 97,
            Kind::Position => 14,
            Kind::Authority | Kind::Danger => 10,
            Kind::Sos => 13,
            Kind::Clear => 8,
            Kind::StepBack => 2,
        }
    }
}
