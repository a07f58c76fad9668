// The posting calls: head by value, guards as flat numbers, every list lent. Any numbers may come in: a call refuses by number
// and then changes nothing, or does the work that the rules say. Each promise says of all that is seen afterwards that it is what
// the rules say.
#![tactic(auto)]

ghost use Rattle.std.specs.Prelude.{◌≡◌, []};
ghost use Rattle.rules.specs.Orders.{lending};
ghost use Rattle.publish.specs.Promises.{PreparePromise, RollbackPromise, RemovalPromise, PublishPromise, CountPromise};

use rules::{Answer, Done, Head};

// Puts the destinations of a change list into the table, all of them or none, and writes their change numbers into the record
// list. An accepted answer names how many they are.
pub fn prepare_index_destinations(
    head: Head,
    table: &mut [u32],
    changes: &[u32],
    guards: &[u32],
    strip: &[u8],
    record: &mut [u32],
) -> Done
    ensures { PreparePromise head table.old
        (lending changes.now guards.now strip.now «record».old) result
        table.new «record».new }
{
    match refusals::of_prepare(head, table, changes, guards, strip, record) {
        Ok(list) => work::prepare(head, table, list, strip, record),
        Err(why) => Done::refused(head, why),
    }
}

// Takes the destinations of a record out of the table again. The record is the whole lent list: lend the part that prepare named.
pub fn rollback_index_destinations(
    head: Head,
    table: &mut [u32],
    changes: &[u32],
    guards: &[u32],
    strip: &[u8],
    record: &[u32],
) -> Done
    ensures { RollbackPromise head table.old
        (lending changes.now guards.now strip.now «record».now) result
        table.new «record».now }
{
    match refusals::of_rollback(head, table, changes, guards, strip, record) {
        Ok(list) => work::rollback(head, table, list, strip, record),
        Err(why) => Done::refused(head, why),
    }
}

// Takes the sources of a change list out of the table.
pub fn remove_index_sources(
    head: Head,
    table: &mut [u32],
    changes: &[u32],
    guards: &[u32],
    strip: &[u8],
) -> Done
    ensures { RemovalPromise head table.old
        (lending changes.now guards.now strip.now []) result table.new [] }
{
    match refusals::of_removal(head, table, changes, guards, strip) {
        Ok(list) => work::remove(head, table, list, strip),
        Err(why) => Done::refused(head, why),
    }
}

// Prepare, then source removal: sources stay until every destination is in.
#[tactic(auto, using(publish_core::proofs::Publishing::admitted_ready, publish_core::proofs::Publishing::admitted_publishes))]
pub fn publish(
    head: Head,
    table: &mut [u32],
    changes: &[u32],
    guards: &[u32],
    strip: &[u8],
    record: &mut [u32],
) -> Done
    ensures { PublishPromise head table.old
        (lending changes.now guards.now strip.now «record».old) result
        table.new «record».new }
{
    let admitted = refusals::of_publish(head, table, changes, guards, strip, record);
    publish_core::publish(head, table, admitted, strip, record)
}

// How many postings a binding and key have.
#[tactic(auto, using(laws::proofs::Checks::count_formed), unfolding(rules::specs::Calls::count_of))]
pub fn count(head: Head, table: &[u32], binding: u32, key: u32) -> Answer
    ensures { CountPromise head table.now binding key result }
{
    refusals::of_count(head, table, binding)?;
    Ok(work::count(head, table, binding, key))
}
