// Compare and the two passes, step by step, as storage behaves by the strip. An inner layer, not delivered. What is left of the strip
// to read stands behind `strip`, and the view as the steps leave it behind `view`.
#![tactic(auto)]

ghost use Rattle.std.specs.Prelude.{◌≡◌, drop};
ghost use Rattle.lane_rules.specs.Steps.{compared};
ghost use Rattle.lane_rules.specs.Calls.{view_with};
ghost use Rattle.lane_laws.specs.Ends.{cached_work, refreshed_work};

use lane_rules::{ErrorByte, Said, View};
use masks::{clear_lane, lane_in};
use strips::next_byte;

// Byte 0 clears the lane and says yes if it is attached, else no; byte 1 says no; byte 2 is an error.
#[tactic(auto, unfolding(lane_rules::specs::Steps::compared))]
fn compare(byte: u8, lane: u32, attached: &mut u32) -> Said
    ensures { record { said = result; attached = attached.new } ≡ compared byte lane attached.old }
{
    match byte {
        0 if lane_in(*attached, lane) => {
            *attached = clear_lane(*attached, lane);
            Ok(true)
        }
        0 | 1 => Ok(false),
        _ => Err(ErrorByte),
    }
}

// The cached pass: from the top lane down, no at the first lane that is outside the window or is not cleared.
pub fn cached_pass(strip: &mut &[u8], view: &mut View) -> Said
    ensures said { result ≡ (cached_work view.old strip.old.now).said }
    ensures view { let p = cached_work view.old strip.old.now in
        view.new ≡ view_with view.old p.attached view.old.window view.old.retired }
    ensures strip { strip.new.now ≡ drop (cached_work view.old strip.old.now).read strip.old.now }
{
    for lane in (0..view.height).rev() {
        if !lane_in(view.window, lane) {
            return Ok(false);
        }
        if !compare(next_byte(strip), lane, &mut view.attached)? {
            return Ok(false);
        }
    }
    Ok(true)
}

// The refreshed pass: from the top lane down, yes where no lane of the window was there to try; an error ends it.
pub fn refreshed_pass(strip: &mut &[u8], view: &mut View) -> Said
    ensures said { result ≡ (refreshed_work view.old strip.old.now).said }
    ensures view { let p = refreshed_work view.old strip.old.now in
        view.new ≡ view_with view.old p.attached view.old.window view.old.retired }
    ensures strip { strip.new.now ≡ drop (refreshed_work view.old strip.old.now).read strip.old.now }
{
    let mut is_untried = true;
    for lane in (0..view.height).rev() {
        if lane_in(view.window, lane) {
            compare(next_byte(strip), lane, &mut view.attached)?;
            is_untried = false;
        }
    }
    Ok(is_untried)
}
