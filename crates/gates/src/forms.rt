// The two forms of a gate sub-packet, which differ in the distance alone: the old one says it in tens of metres, the new one in metres.
ghost use Rattle.std.specs.Prelude.{◌≡◌};
ghost use Rattle.gates.specs.Forms.{layout_of, other_form};

#[derive(Clone, Copy)]
pub enum Form {
    Old,
    New,
}

// The width of a form's distance in bits, the metres that one of it means, the farthest in metres, and the most gates of a sub-packet.
#[derive(Clone, Copy)]
pub struct Layout {
    pub distance: u8,
    pub unit: u32,
    pub farthest: u32,
    pub most: usize,
}

impl Form {
    pub fn layout(self) -> Layout
        ensures { result ≡ layout_of self }
    {
        match self {
            Form::Old => Layout {
                distance: 9,
                unit: 10,
                farthest: 5110,
                most: 31,
            },
            Form::New => Layout {
                distance: crate::DISTANCE_WIDTH,
                unit: 1,
                farthest: 32767,
                most: crate::MOST_GATES,
            },
        }
    }

    pub fn other(self) -> Form
        ensures { result ≡ other_form self }
    {
        match self {
            Form::Old => Form::New,
            Form::New => Form::Old,
        }
    }
}
