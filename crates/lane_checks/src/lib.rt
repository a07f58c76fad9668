// The checks of the lane calls at entry, in their order: the first that applies is given. An inner layer, not delivered.
#![tactic(auto)]

ghost use Rattle.std.specs.Prelude.{◌≡◌, Ok};
ghost use Rattle.lane_rules.specs.declared.Failure.{Failure};
ghost use Rattle.lane_rules.specs.Calls.{bad_height, bad_view, refuse, entry_checks, refreshed_checks};

use lane_rules::{Failure, View};

// The height is 0 or above 32.
#[tactic(auto, unfolding(lane_rules::specs::Calls::bad_height))]
fn bad_height(view: View) -> bool
    ensures { result ≡ bad_height view }
{
    view.height == 0 || view.height > masks::MOST_LANES
}

// The view is not guarded, or it is retired, or a lane at or above the height is attached.
#[tactic(auto, unfolding(lane_rules::specs::Calls::bad_view))]
fn bad_view(view: View) -> bool
    ensures { result ≡ bad_view view }
{
    view.guarded != 1
        || view.retired != 0
        || masks::lanes_below(view.attached, view.height) != view.attached
}

// The failure, where its test applies. The buckets have the like for their own failures: one for both would be a crate for one line.
fn refuse(applies: bool, failure: Failure) -> Result<(), Failure>
    ensures { result ≡ refuse applies failure (Ok tt) }
{
    if applies { Err(failure) } else { Ok(()) }
}

// The checks of a view, with which each call begins.
fn view_checks(view: View) -> Result<(), Failure>
    ensures { result ≡ refuse (bad_height view) Failure.Height (refuse (bad_view view) Failure.View (Ok tt)) }
{
    refuse(bad_height(view), Failure::Height)?;
    refuse(bad_view(view), Failure::View)
}

// The checks of the cached pass and of detach, in their order.
#[tactic(auto, unfolding(lane_rules::specs::Calls::entry_checks, lane_rules::specs::Calls::bad_strip))]
pub fn entry_checks(view: View, strip: &[u8]) -> Result<(), Failure>
    ensures { result ≡ entry_checks view strip.now }
{
    view_checks(view)?;
    refuse(!strips::proper_strip(strip), Failure::Strip)
}

// The checks of the refreshed pass, in their order.
#[tactic(auto, unfolding(lane_rules::specs::Calls::refreshed_checks, lane_rules::specs::Calls::bad_window, lane_rules::specs::Calls::bad_strip))]
pub fn refreshed_checks(view: View, strip: &[u8]) -> Result<(), Failure>
    ensures { result ≡ refreshed_checks view strip.now }
{
    view_checks(view)?;
    refuse(
        !masks::is_within(view.attached, view.window),
        Failure::Window,
    )?;
    refuse(!strips::proper_strip(strip), Failure::Strip)
}
