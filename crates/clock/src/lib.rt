// The frame age (document 01, "Frame age"; document 02, T-02), and whether the conditions that hang on it hold.
#![tactic(auto)]

ghost use Rattle.std.specs.Prelude.{◌≡◌, false};
ghost use Rattle.clock.specs.Age.{not_a_frame, refuses, difference, aged, frame_age};

const LAST_FRAME: u32 = 86_400;

const OUT_OF_RANGE: u32 = 17;

// The conditions are 1 where they hold; of condition 24 this is the part that looks at the frames.
// The C interface needs the numbers: the header has this struct, with an answer and conditions that C reads.
#[repr(C)]
#[derive(Clone, Copy, Default)]
pub struct FrameAge {
    pub answer: u32,
    pub age: u32,
    pub condition24: u32,
    pub condition26: u32,
    pub condition27: u32,
}

fn is_no_frame(n: u32) -> bool
    ensures { result ≡ not_a_frame n }
{
    n < 1 || LAST_FRAME < n
}

fn is_refused(station: u32, onboard: u32) -> bool
    ensures { result ≡ refuses station onboard }
{
    is_no_frame(station) || is_no_frame(onboard)
}

// Across midnight the station's number is the lower one.
fn difference(station: u32, onboard: u32) -> u32
    requires { refuses station onboard ≡ false }
    ensures { result ≡ difference station onboard }
{
    if station < onboard {
        station + LAST_FRAME - onboard
    } else {
        station - onboard
    }
}

// The answer for an age.
fn answer_for(age: u32) -> FrameAge
    ensures { result ≡ aged age }
{
    FrameAge {
        answer: 0,
        age,
        condition24: u32::from(age <= 1),
        condition26: u32::from(14 < age),
        condition27: u32::from(age < 5),
    }
}

// The age of the onboard frame by the station's, refused where either is no frame's number.
pub fn frame_age(station: u32, onboard: u32) -> FrameAge
    ensures { result ≡ frame_age station onboard }
{
    if is_refused(station, onboard) {
        return FrameAge {
            answer: OUT_OF_RANGE,
            ..FrameAge::default()
        };
    }
    answer_for(difference(station, onboard) / 2)
}
