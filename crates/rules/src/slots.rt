// Which requests for bytes there are, and how many slots one needs.
ghost use Rattle.std.specs.Prelude.{◌≡◌};
ghost use Rattle.rules.specs.Slots.{is_request, slots_for};

const MOST_SLOTS: u64 = 6;

// A request is for 1 byte to six slots' worth.
#[tactic(auto, unfolding(crate::specs::Slots::is_request, kinds::specs::Ranges::one_to))]
pub fn is_request(carries: u32, bytes: u32) -> bool
    ensures { result ≡ is_request carries bytes }
{
    1 <= bytes && u64::from(bytes) <= MOST_SLOTS * u64::from(carries)
}

// The slots that a request needs: its bytes by those of a slot, rounded up.
pub fn slots_for(carries: u32, bytes: u32) -> u32
    ensures { result ≡ slots_for carries bytes }
{
    if carries == 0 {
        return 0;
    }
    if bytes == 0 {
        return 0;
    }
    (bytes - 1) / carries + 1
}
