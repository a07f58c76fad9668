// The lane calls: the view by value, the pinned contents and the strip lent for reading. Any numbers may come in: a call refuses by
// number and then changes nothing, or does the work that the lane rules say. Each promise says of all that is seen afterwards that
// it is what the rules say. No call can write the contents, which readers may hold pinned.
#![tactic(auto)]

ghost use Rattle.std.specs.Prelude.{◌≡◌};
ghost use Rattle.lane_rules.specs.Calls.{cached_of, refreshed_of, detach_of};
ghost use Rattle.lanes.specs.Promises.{CachedPromise, RefreshedPromise, DetachPromise};

use lane_checks::{entry_checks, refreshed_checks};
use lane_rounds::detach;
use lane_rules::{Answer, Done, View};
use passes::{cached_pass, refreshed_pass};

// The cached pass, unless a check refuses it: 1 for a yes and 0 for a no.
fn cached_answer(mut strip: &[u8], view: &mut View) -> Answer
    ensures { record { view = view.new; answer = result } ≡ cached_of view.old strip.now }
{
    entry_checks(*view, strip)?;
    let said = cached_pass(&mut strip, view);
    Ok(u32::from(said?))
}

// The refreshed pass, unless a check refuses it. One function for both passes is no plainer: it would be given the checks and the pass as
// `impl Fn`, and promise what these two promise of `cached_of` and `refreshed_of` by what the functions given promise.
fn refreshed_answer(mut strip: &[u8], view: &mut View) -> Answer
    ensures { record { view = view.new; answer = result } ≡ refreshed_of view.old strip.now }
{
    refreshed_checks(*view, strip)?;
    Ok(u32::from(refreshed_pass(&mut strip, view)?))
}

// The passes and rounds of a detach, unless a check refuses it. The node is retired exactly where they end with a yes.
fn detach_answer(mut strip: &[u8], rounds: u32, view: &mut View) -> Answer
    ensures { record { view = view.new; answer = result } ≡ detach_of view.old strip.now rounds }
{
    entry_checks(*view, strip)?;
    let made = detach(&mut strip, rounds, view)?;
    view.retired = 1;
    Ok(made)
}

// The cached pass: tries each lane of the window from the top lane down, and tells 1 where all are detached.
pub fn cached_detach(mut view: View, contents: &[u32], strip: &[u8]) -> Done
    ensures { CachedPromise view strip.now result }
{
    let answer = cached_answer(strip, &mut view);
    Done { view, answer }
}

// The refreshed pass: tries the lanes of the window, and tells 1 where there was none left to try.
pub fn refreshed_detach(mut view: View, contents: &[u32], strip: &[u8]) -> Done
    ensures { RefreshedPromise view strip.now result }
{
    let answer = refreshed_answer(strip, &mut view);
    Done { view, answer }
}

// Detaches the node from all its lanes and retires it, in at most so many rounds. Two more than half the strip's bytes are always
// enough, unless storage fails.
pub fn detach_before_retire(mut view: View, contents: &[u32], strip: &[u8], rounds: u32) -> Done
    ensures { DetachPromise view strip.now rounds result }
{
    let answer = detach_answer(strip, rounds, &mut view);
    Done { view, answer }
}
