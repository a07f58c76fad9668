// Sets of 32 lanes as one number, by shift and mask: lane l is in the mask where its bit l is 1. Nothing here has a `requires`:
// a lane of 32 or more is in no mask, and no lane stands at or above a height of 32.
#![tactic(auto)]

ghost use Rattle.std.specs.Prelude.{◌≡◌};
ghost use Rattle.masks.specs.Masks.{lane_in, cleared, entered, lanes_below, within, lowest, lowest_cleared};

// The lanes that a mask can have, as in the definitions.
pub const MOST_LANES: u32 = 32;

// The lane is in the mask.
pub fn lane_in(mask: u32, lane: u32) -> bool
    ensures { result ≡ lane_in mask lane }
{
    if lane >= MOST_LANES {
        return false;
    }
    (mask >> lane) & 1 == 1
}

// The mask without the lane.
pub fn clear_lane(mask: u32, lane: u32) -> u32
    ensures { result ≡ cleared mask lane }
{
    if lane >= MOST_LANES {
        return mask;
    }
    mask & !(1u32 << lane)
}

// The mask with the lane. There is no lane of 32 or more, and the mask is then as it was.
pub fn set_lane(mask: u32, lane: u32) -> u32
    ensures { result ≡ entered mask lane }
{
    if lane >= MOST_LANES {
        return mask;
    }
    mask | (1u32 << lane)
}

// The lanes of the mask that are below a height.
pub fn lanes_below(mask: u32, height: u32) -> u32
    ensures { result ≡ lanes_below mask height }
{
    if height >= MOST_LANES {
        return mask;
    }
    mask & ((1u32 << height) - 1)
}

// Each lane of the mask is in the other.
pub fn is_within(mask: u32, other: u32) -> bool
    ensures { result ≡ within mask other }
{
    mask & other == mask
}

// The lowest lane of the mask, or 32 where it has none.
pub fn lowest_lane(mask: u32) -> u32
    ensures { result ≡ lowest mask }
{
    u32::trailing_zeros(mask)
}

// The mask without its lowest lane, if it has any.
pub fn clear_lowest(mask: u32) -> u32
    ensures { result ≡ lowest_cleared mask }
{
    if mask == 0 {
        return mask;
    }
    mask & (mask - 1)
}
