// The checks of the posting calls, in groups, and the groups of each call: a straight run, so that the first that applies is given.
// Where all pass, a call gets the changes of its list, which is then known to be within its limit. An inner layer, not delivered.
#![tactic(auto)]

ghost use Rattle.std.specs.Prelude.{◌≡◌, [], ◌∷◌};
ghost use Rattle.rules.specs.Table.{postings};
ghost use Rattle.rules.specs.Orders.{changes, guards, proper_guards, lending};
ghost use Rattle.rules.specs.Checks.{first_refusal, room_check, guard_check, opening_checks, lent_checks, arriving_checks, leaving_checks, order_checks, prepare_checks, rollback_checks, removal_checks, count_checks};
ghost use Rattle.table.specs.Holding.{Ordered};
ghost use Rattle.checks.specs.Guarding.{bindings_from};
ghost use Rattle.refusals.specs.Admitting.{Admits};

use changes::Changes;
use checks::{check_bindings, check_guards, check_record, proper_guards, proper_lists};
use clashes::{check_overlap, check_present, check_twice};
use rules::{Failure, Head};
use table::Postings;

// 1 TABLE, 2 POISONED.
#[tactic(auto, unfolding(rules::specs::Checks::first_refusal, rules::specs::Checks::opening_checks, rules::specs::Checks::table_check, rules::specs::Checks::poison_check))]
fn opening(head: Head, table: &[u32]) -> Result<(), Failure>
    ensures { result ≡ opening_checks head table.now }
{
    if !table_checks::well_formed(head, table) {
        return Err(Failure::Table);
    }
    if head.poisoned != 0 {
        return Err(Failure::Poisoned);
    }
    Ok(())
}

// 3 LIST, 4 STRIP, beside guards that are proper or not.
#[tactic(auto, unfolding(rules::specs::Checks::first_refusal, rules::specs::Checks::lent_checks, rules::specs::Checks::list_check, rules::specs::Checks::strip_check))]
fn lent<'a>(list: &'a [u32], paired: bool, strip: &[u8]) -> Result<Changes<'a>, Failure>
    ensures { Admits (lent_checks list.now paired strip.now) list.now result }
{
    let Some(changes) = proper_lists(list, paired) else {
        return Err(Failure::List);
    };
    if !strips::proper_strip(strip) {
        return Err(Failure::Strip);
    }
    Ok(changes)
}

// 5 ROOM.
#[tactic(auto, unfolding(rules::specs::Checks::room_check))]
fn room(list: Changes, record: &[u32]) -> Result<(), Failure>
    ensures { result ≡ room_check (changes list.entry.numbers.now) «record».now }
{
    if list.len() > record.len() {
        return Err(Failure::Room);
    }
    Ok(())
}

// 6 GUARD by the flat numbers of the guards.
fn guarded(head: Head, list: Changes, pairs: &[u32]) -> Result<(), Failure>
    ensures { result ≡ guard_check head.bindings (guards pairs.now) (changes list.entry.numbers.now) }
{
    check_guards(head.bindings, list, pairs)
}

// 7 TWICE, 8 PRESENT.
#[tactic(auto, unfolding(rules::specs::Checks::first_refusal, rules::specs::Checks::arriving_checks))]
fn arriving(head: Head, table: &[u32], list: Changes) -> Result<(), Failure>
    requires { Ordered table.now head.used }
    ensures { result ≡ arriving_checks (postings head.used table.now) (changes list.entry.numbers.now) }
{
    check_twice(list)?;
    check_present(&Postings::new(table, head.used as usize), list)
}

// 7 to 9: the destinations, and then the sources.
#[tactic(auto, unfolding(rules::specs::Checks::first_refusal, rules::specs::Checks::leaving_checks))]
pub fn clashing(head: Head, table: &[u32], list: Changes) -> Result<(), Failure>
    requires { Ordered table.now head.used }
    ensures { result ≡ first_refusal (arriving_checks (postings head.used table.now) (changes list.entry.numbers.now)
        ∷ leaving_checks (changes list.entry.numbers.now) ∷ []) }
{
    arriving(head, table, list)?;
    check_overlap(list)
}

// Publish 1 to 5, beside guards that are proper or not.
#[tactic(auto, unfolding(rules::specs::Checks::first_refusal, rules::specs::Checks::order_checks))]
fn of_order<'a>(
    head: Head,
    table: &[u32],
    list: &'a [u32],
    paired: bool,
    strip: &[u8],
    record: &[u32],
) -> Result<Changes<'a>, Failure>
    ensures { Admits (order_checks head table.now list.now paired strip.now «record».now) list.now result }
{
    opening(head, table)?;
    let changes = lent(list, paired, strip)?;
    room(changes, record)?;
    Ok(changes)
}

// Publish 1 to 6, beside the flat numbers of the guards.
#[tactic(auto, unfolding(rules::specs::Checks::first_refusal))]
pub fn of_publish<'a>(
    head: Head,
    table: &[u32],
    list: &'a [u32],
    pairs: &[u32],
    strip: &[u8],
    record: &[u32],
) -> Result<Changes<'a>, Failure>
    ensures { Admits (first_refusal (order_checks head table.now list.now (proper_guards pairs.now) strip.now «record».now
        ∷ guard_check head.bindings (guards pairs.now) (changes list.now) ∷ [])) list.now result }
{
    let changes = of_order(head, table, list, proper_guards(pairs), strip, record)?;
    guarded(head, changes, pairs)?;
    Ok(changes)
}

// Publish 1 to 6, beside guards that are proper or not, of which the first change with a key that is not held is known.
#[tactic(auto, unfolding(rules::specs::Checks::first_refusal))]
pub fn of_publish_beside<'a>(
    head: Head,
    table: &[u32],
    list: &'a [u32],
    paired: bool,
    unheld: usize,
    strip: &[u8],
    record: &[u32],
) -> Result<Changes<'a>, Failure>
    ensures { Admits (first_refusal (order_checks head table.now list.now paired strip.now «record».now
        ∷ bindings_from head.bindings unheld 0 (changes list.now) ∷ [])) list.now result }
{
    let changes = of_order(head, table, list, paired, strip, record)?;
    check_bindings(head.bindings, changes, unheld)?;
    Ok(changes)
}

// Prepare 1 to 8.
#[tactic(auto, unfolding(rules::specs::Checks::first_refusal, rules::specs::Checks::prepare_checks))]
pub fn of_prepare<'a>(
    head: Head,
    table: &[u32],
    list: &'a [u32],
    pairs: &[u32],
    strip: &[u8],
    record: &[u32],
) -> Result<Changes<'a>, Failure>
    ensures { Admits (prepare_checks head table.now (lending list.now pairs.now strip.now «record».now)) list.now result }
{
    opening(head, table)?;
    let changes = lent(list, proper_guards(pairs), strip)?;
    room(changes, record)?;
    guarded(head, changes, pairs)?;
    arriving(head, table, changes)?;
    Ok(changes)
}

// Rollback 1 to 4, 6, 14.
#[tactic(auto, unfolding(rules::specs::Checks::first_refusal, rules::specs::Checks::rollback_checks))]
pub fn of_rollback<'a>(
    head: Head,
    table: &[u32],
    list: &'a [u32],
    pairs: &[u32],
    strip: &[u8],
    record: &[u32],
) -> Result<Changes<'a>, Failure>
    ensures { Admits (rollback_checks head table.now (lending list.now pairs.now strip.now «record».now)) list.now result }
{
    opening(head, table)?;
    let undone = lent(list, proper_guards(pairs), strip)?;
    guarded(head, undone, pairs)?;
    check_record(undone, record)?;
    Ok(undone)
}

// Removal 1 to 4, 6.
#[tactic(auto, unfolding(rules::specs::Checks::first_refusal, rules::specs::Checks::removal_checks))]
pub fn of_removal<'a>(
    head: Head,
    table: &[u32],
    list: &'a [u32],
    pairs: &[u32],
    strip: &[u8],
) -> Result<Changes<'a>, Failure>
    ensures { Admits (removal_checks head table.now (lending list.now pairs.now strip.now [])) list.now result }
{
    opening(head, table)?;
    let changes = lent(list, proper_guards(pairs), strip)?;
    guarded(head, changes, pairs)?;
    Ok(changes)
}

// Count 1, 2 and 6, which asks its binding alone.
#[tactic(auto, unfolding(rules::specs::Checks::first_refusal, rules::specs::Checks::count_checks))]
pub fn of_count(head: Head, table: &[u32], binding: u32) -> Result<(), Failure>
    ensures { result ≡ count_checks head table.now binding }
{
    opening(head, table)?;
    if binding >= head.bindings {
        return Err(Failure::Guard(0));
    }
    Ok(())
}
