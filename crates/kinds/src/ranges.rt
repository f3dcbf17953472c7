// The range rules that operations ask for: a location, a position, a grid; and the number that stands for no location.
ghost use Rattle.std.specs.Prelude.{◌≡◌};
ghost use Rattle.kinds.specs.Ranges.{one_to, is_location, is_position, is_grid, is_none_or_location, location_from};

pub const LAST_LOCATION: u32 = 524287;

pub const GRIDS: u32 = 4;
// What a boundary carries where there is no authority, or no danger location.
pub const NONE: u32 = 4294967295;

#[tactic(auto, unfolding(crate::specs::Ranges::one_to))]
pub fn is_one_to(last: u32, n: u32) -> bool
    ensures { result ≡ one_to last n }
{
    1 <= n && n <= last
}

pub fn is_location(x: u32) -> bool
    ensures { result ≡ is_location x }
{
    x <= LAST_LOCATION
}

// Both ends are locations, for the rear is not above the front.
#[tactic(auto, unfolding(crate::specs::Ranges::is_position))]
pub fn is_position(front: u32, rear: u32) -> bool
    ensures { result ≡ is_position front rear }
{
    is_location(front) && rear <= front
}

pub fn is_grid(grid: u32) -> bool
    ensures { result ≡ is_grid grid }
{
    is_one_to(GRIDS, grid)
}

// May the number stand for an authority's end or a danger location?
#[tactic(auto, unfolding(crate::specs::Ranges::is_none_or_location))]
pub fn is_none_or_location(number: u32) -> bool
    ensures { result ≡ is_none_or_location number }
{
    number == NONE || is_location(number)
}

// The location that a number at a boundary stands for, where it is one.
#[tactic(auto, unfolding(crate::specs::Ranges::location_from))]
pub fn location_from(number: u32) -> Option<u32>
    ensures { result ≡ location_from number }
{
    if number == NONE { None } else { Some(number) }
}
