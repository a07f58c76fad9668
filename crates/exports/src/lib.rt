// What C and Rust link with: each call of the four libraries of exports under its plain name, and nothing else. A static library is
// no library for other crates, so each call stands here once more, over the one that the theorems are of, with the same promise.
// The crate's name gives the archive its name, `libexports.a`; `include/asdrifen.h` tells a C user the calls.
#![tactic(auto)]

ghost use Rattle.std.specs.Prelude.{[]};
ghost use Rattle.rules.specs.Orders.{lending};
ghost use Rattle.entry.specs.Promises.{PoisonPromise};
ghost use Rattle.exports_lent.specs.Promises.{LentPublishPromise, HeldPromise};
ghost use Rattle.exports_postings.specs.Promises.{PreparePromise, RollbackPromise, RemovalPromise, PublishPromise, CountPromise};
ghost use Rattle.exports_lanes.specs.Promises.{CachedPromise, RefreshedPromise, DetachPromise};
ghost use Rattle.exports_buckets.specs.Promises.{SortPromise, BitmapPromise, PrecedesPromise};

use exports_lanes::Detached;
use exports_postings::Done;
use lane_rules::View;
use rules::{Guard, Head, Told};

// Publish with the head set in place and the held guards as a list of guards.
#[unsafe(no_mangle)]
pub extern "C" fn asdrifen_publish(
    head: &mut Head,
    table: &mut [u32],
    changes: &[u32],
    guards: &[Guard],
    strip: &[u8],
    record: &mut [u32],
) -> Told
    ensures { LentPublishPromise head.old table.old changes.now guards.now
        strip.now «record».old result head.new table.new «record».new }
{
    exports_lent::asdrifen_publish(head, table, changes, guards, strip, record)
}

// Sets the poison flag in place.
#[unsafe(no_mangle)]
pub extern "C" fn asdrifen_poison_indexes(head: &mut Head)
    ensures { PoisonPromise head.old head.new }
{
    exports_lent::asdrifen_poison_indexes(head);
}

// 1 where the pair (binding, key) is among the guards, else 0.
#[unsafe(no_mangle)]
pub extern "C" fn asdrifen_held(guards: &[Guard], binding: u32, key: u32) -> u32
    ensures { HeldPromise guards.now binding key result }
{
    exports_lent::asdrifen_held(guards, binding, key)
}

// Prepare, then source removal: sources stay until every destination is in.
#[unsafe(no_mangle)]
pub extern "C" fn asdrifen_publish_by_value(
    head: Head,
    table: &mut [u32],
    changes: &[u32],
    guards: &[u32],
    strip: &[u8],
    record: &mut [u32],
) -> Done
    ensures { PublishPromise head table.old
        (lending changes.now guards.now strip.now «record».old) result
        table.new «record».new }
{
    exports_postings::asdrifen_publish_by_value(head, table, changes, guards, strip, record)
}

// Puts the destinations of a change list into the table, all of them or none, and writes their change numbers into the record list.
#[unsafe(no_mangle)]
pub extern "C" fn asdrifen_prepare_index_destinations(
    head: Head,
    table: &mut [u32],
    changes: &[u32],
    guards: &[u32],
    strip: &[u8],
    record: &mut [u32],
) -> Done
    ensures { PreparePromise head table.old
        (lending changes.now guards.now strip.now «record».old) result
        table.new «record».new }
{
    exports_postings::asdrifen_prepare_index_destinations(
        head, table, changes, guards, strip, record,
    )
}

// Takes the destinations of a record out of the table again.
#[unsafe(no_mangle)]
pub extern "C" fn asdrifen_rollback_index_destinations(
    head: Head,
    table: &mut [u32],
    changes: &[u32],
    guards: &[u32],
    strip: &[u8],
    record: &[u32],
) -> Done
    ensures { RollbackPromise head table.old
        (lending changes.now guards.now strip.now «record».now) result
        table.new «record».now }
{
    exports_postings::asdrifen_rollback_index_destinations(
        head, table, changes, guards, strip, record,
    )
}

// Takes the sources of a change list out of the table.
#[unsafe(no_mangle)]
pub extern "C" fn asdrifen_remove_index_sources(
    head: Head,
    table: &mut [u32],
    changes: &[u32],
    guards: &[u32],
    strip: &[u8],
) -> Done
    ensures { RemovalPromise head table.old
        (lending changes.now guards.now strip.now []) result table.new [] }
{
    exports_postings::asdrifen_remove_index_sources(head, table, changes, guards, strip)
}

// How many postings a binding and key have.
#[unsafe(no_mangle)]
pub extern "C" fn asdrifen_count(head: Head, table: &[u32], binding: u32, key: u32) -> Told
    ensures { CountPromise head table.now binding key result }
{
    exports_postings::asdrifen_count(head, table, binding, key)
}

// One pass over the lanes of the window, from the top lane down.
#[unsafe(no_mangle)]
pub extern "C" fn asdrifen_cached_detach(view: View, contents: &[u32], strip: &[u8]) -> Detached
    ensures { CachedPromise view strip.now result }
{
    exports_lanes::asdrifen_cached_detach(view, contents, strip)
}

// One pass with a refreshed window, which must hold every attached lane.
#[unsafe(no_mangle)]
pub extern "C" fn asdrifen_refreshed_detach(view: View, contents: &[u32], strip: &[u8]) -> Detached
    ensures { RefreshedPromise view strip.now result }
{
    exports_lanes::asdrifen_refreshed_detach(view, contents, strip)
}

// Detaches the node from all its lanes and retires it, in at most so many rounds.
#[unsafe(no_mangle)]
pub extern "C" fn asdrifen_detach_before_retire(
    view: View,
    contents: &[u32],
    strip: &[u8],
    rounds: u32,
) -> Detached
    ensures { DetachPromise view strip.now rounds result }
{
    exports_lanes::asdrifen_detach_before_retire(view, contents, strip, rounds)
}

// Writes the distinct elements of the input into the output, ascending, by sorting.
#[unsafe(no_mangle)]
pub extern "C" fn asdrifen_canonical_buckets_sort(
    input: &[u32],
    count: u32,
    output: &mut [u32],
) -> Told
    ensures { SortPromise input.now count output.old result output.new }
{
    exports_buckets::asdrifen_canonical_buckets_sort(input, count, output)
}

// The same by way of membership bits, which the scratch then holds.
#[unsafe(no_mangle)]
pub extern "C" fn asdrifen_canonical_buckets_bitmap(
    input: &[u32],
    count: u32,
    output: &mut [u32],
    scratch: &mut [u32],
) -> Told
    ensures { BitmapPromise input.now count output.old scratch.old result
        output.new scratch.new }
{
    exports_buckets::asdrifen_canonical_buckets_bitmap(input, count, output, scratch)
}

// 1 where the stamp is less than the snapshot, else 0.
#[unsafe(no_mangle)]
pub extern "C" fn asdrifen_stamp_precedes_snapshot(stamp: u64, snapshot: u64) -> u32
    ensures { PrecedesPromise stamp snapshot result }
{
    exports_buckets::asdrifen_stamp_precedes_snapshot(stamp, snapshot)
}
