// What reading and writing turnouts share: the bits of a turnout, and what is allowed in it.
#![tactic(auto)]

ghost use Rattle.std.specs.Prelude.{◌≡◌, ◌≤◌};
ghost use Rattle.numbers.specs.Pieces.{total};
ghost use Rattle.profiles.specs.Profiles.{count_of};
ghost use Rattle.turnouts.specs.Turnouts.{turnout_profile, is_restricted, behind_speed, last_distance, last_release, is_allowed};

pub const TURNOUT_TYPE: u32 = 4;

pub const TURNOUT_BYTES: usize = 5;

// The bit at which the first turnout starts.
pub const FIRST_TURNOUT_AT: usize = 13;

pub const SPEED_BITS: usize = 5;

// What one of a distance weighs in the number that distance and release distance are together. A release distance is below it, and weighs 1.
pub const DISTANCE_WEIGHT: u32 = 4096;

// The bits of a distance and a release distance together.
const DISTANCES_BITS: usize = 27;

// The greatest that these bits can say of each.
const LAST_DISTANCE: u32 = 32767;

const LAST_RELEASE: u32 = 4095;

// The codes of a speed that limit it are 1 to 18.
const LAST_RESTRICTED: u32 = 18;

const UNRESTRICTED: u32 = 31;

// The count of turnouts that the sub-packet says: the 2 digits of the header's 16 that stand above the 3 lowest.
pub fn count_of(s: &[u8]) -> usize
    ensures { (result ≡ count_of turnout_profile s.now) × (result ≤ 3) }
{
    (numbers::half_at(s, 0) / 8 % 4) as usize
}

// Whether a speed's code limits it, so that a distance and a release distance follow.
#[tactic(auto, unfolding(crate::specs::Turnouts::is_restricted))]
pub fn is_restricted(speed: u32) -> bool
    ensures { result ≡ is_restricted speed }
{
    1 <= speed && speed <= LAST_RESTRICTED
}

// The bits of a turnout behind its speed.
#[tactic(auto, unfolding(crate::specs::Turnouts::behind_speed, numbers::specs::Pieces::total))]
pub fn bits_behind(speed: u32) -> usize
    ensures { (result ≡ total (behind_speed speed)) × (result ≤ 27) }
{
    if is_restricted(speed) {
        DISTANCES_BITS
    } else {
        0
    }
}

// The greatest distance of a turnout with this speed.
#[tactic(auto, unfolding(crate::specs::Turnouts::last_distance))]
pub fn last_distance(speed: u32) -> u32
    ensures { result ≡ last_distance speed }
{
    if is_restricted(speed) {
        LAST_DISTANCE
    } else {
        0
    }
}

// The greatest release distance of a turnout with this speed.
#[tactic(auto, unfolding(crate::specs::Turnouts::last_release))]
pub fn last_release(speed: u32) -> u32
    ensures { result ≡ last_release speed }
{
    if is_restricted(speed) {
        LAST_RELEASE
    } else {
        0
    }
}

// Whether a speed's code is allowed.
#[tactic(auto, unfolding(crate::specs::Turnouts::is_allowed))]
pub fn is_allowed(speed: u32) -> bool
    ensures { result ≡ is_allowed speed }
{
    is_restricted(speed) || speed == UNRESTRICTED
}
