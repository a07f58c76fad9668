// The lane calls, as C and Rust call them: each under a plain name, over numbers, lent lists and structs by value. No enum crosses.
// Any numbers may come in. Each promise is that of the call behind it, spoken of the numbers that cross. `include/asdrifen.h` tells
// a C user the same.
#![tactic(auto)]

ghost use Rattle.std.specs.Prelude.{◌≡◌};
ghost use Rattle.lanes.specs.Promises.{seen};
ghost use Rattle.exports_lanes.specs.Promises.{lane_seen, CachedPromise, RefreshedPromise, DetachPromise};

use lane_rules::{Done, Told, View};

// The view that a lane call leaves, the number of its answer, and the value beside it.
#[repr(C)]
#[derive(Clone, Copy)]
pub struct Detached {
    pub view: View,
    pub answer: u32,
    pub value: u32,
}

// The numbers of a lane call's result.
impl From<Done> for Detached {
    ghost from_gives = { λ done detached. lane_seen detached ≡ seen done };

    fn from(done: Done) -> Detached {
        let told = Told::from(done.answer);
        Detached {
            view: done.view,
            answer: told.answer,
            value: told.value,
        }
    }
}

// One pass over the lanes of the window, from the top lane down.
#[unsafe(no_mangle)]
pub extern "C" fn asdrifen_cached_detach(view: View, contents: &[u32], strip: &[u8]) -> Detached
    ensures { CachedPromise view strip.now result }
{
    Detached::from(lanes::cached_detach(view, contents, strip))
}

// One pass with a refreshed window, which must hold every attached lane.
#[unsafe(no_mangle)]
pub extern "C" fn asdrifen_refreshed_detach(view: View, contents: &[u32], strip: &[u8]) -> Detached
    ensures { RefreshedPromise view strip.now result }
{
    Detached::from(lanes::refreshed_detach(view, contents, strip))
}

// Detaches the node from all its lanes and retires it, in at most so many rounds.
#[unsafe(no_mangle)]
pub extern "C" fn asdrifen_detach_before_retire(
    view: View,
    contents: &[u32],
    strip: &[u8],
    rounds: u32,
) -> Detached
    ensures { DetachPromise view strip.now rounds result }
{
    Detached::from(lanes::detach_before_retire(view, contents, strip, rounds))
}
