// The posting calls with the head by value, as C and Rust call them: each under a plain name, over numbers, lent lists and structs
// by value. No enum crosses. Any numbers may come in. Each promise is that of the call behind it, spoken of the numbers that cross.
// `include/asdrifen.h` tells a C user the same.
#![tactic(auto)]

ghost use Rattle.std.specs.Prelude.{◌≡◌, []};
ghost use Rattle.rules.specs.Orders.{lending};
ghost use Rattle.exports_postings.specs.Promises.{PreparePromise, RollbackPromise, RemovalPromise, PublishPromise, CountPromise};

use rules::{Head, Told};

// What a posting call tells, and the head that it leaves.
#[repr(C)]
#[derive(Clone, Copy)]
pub struct Done {
    pub head: Head,
    pub told: Told,
}

// The numbers of a posting call's result.
impl From<rules::Done> for Done {
    ghost use Rattle.rules.specs.Answers.{told_of};

    ghost from_gives = { λ res done. done ≡ record { head = res.head; told = told_of res.answer } };

    fn from(res: rules::Done) -> Done {
        Done {
            head: res.head,
            told: res.answer.into(),
        }
    }
}

// Prepare, then source removal: sources stay until every destination is in.
#[unsafe(no_mangle)]
pub extern "C" fn asdrifen_publish_by_value(
    head: Head,
    table: &mut [u32],
    changes: &[u32],
    guards: &[u32],
    strip: &[u8],
    record: &mut [u32],
) -> Done
    ensures { PublishPromise head table.old
        (lending changes.now guards.now strip.now «record».old) result
        table.new «record».new }
{
    publish::publish(head, table, changes, guards, strip, record).into()
}

// Puts the destinations of a change list into the table, all of them or none, and writes their change numbers into the record list.
#[unsafe(no_mangle)]
pub extern "C" fn asdrifen_prepare_index_destinations(
    head: Head,
    table: &mut [u32],
    changes: &[u32],
    guards: &[u32],
    strip: &[u8],
    record: &mut [u32],
) -> Done
    ensures { PreparePromise head table.old
        (lending changes.now guards.now strip.now «record».old) result
        table.new «record».new }
{
    publish::prepare_index_destinations(head, table, changes, guards, strip, record).into()
}

// Takes the destinations of a record out of the table again.
#[unsafe(no_mangle)]
pub extern "C" fn asdrifen_rollback_index_destinations(
    head: Head,
    table: &mut [u32],
    changes: &[u32],
    guards: &[u32],
    strip: &[u8],
    record: &[u32],
) -> Done
    ensures { RollbackPromise head table.old
        (lending changes.now guards.now strip.now «record».now) result
        table.new «record».now }
{
    publish::rollback_index_destinations(head, table, changes, guards, strip, record).into()
}

// Takes the sources of a change list out of the table.
#[unsafe(no_mangle)]
pub extern "C" fn asdrifen_remove_index_sources(
    head: Head,
    table: &mut [u32],
    changes: &[u32],
    guards: &[u32],
    strip: &[u8],
) -> Done
    ensures { RemovalPromise head table.old
        (lending changes.now guards.now strip.now []) result table.new [] }
{
    publish::remove_index_sources(head, table, changes, guards, strip).into()
}

// How many postings a binding and key have.
#[unsafe(no_mangle)]
pub extern "C" fn asdrifen_count(head: Head, table: &[u32], binding: u32, key: u32) -> Told
    ensures { CountPromise head table.now binding key result }
{
    publish::count(head, table, binding, key).into()
}
