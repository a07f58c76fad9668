// The work of each posting call whose checks have passed. An inner layer, not delivered: what the checks have shown is asked for
// here and not tested again.
#![tactic(auto)]

ghost use Rattle.std.specs.Prelude.{◌+◌, ◌*◌, ◌≤◌, ◌<◌, ◌^◌, ◌≡◌, [], true, cond, length, ltb};
ghost use Rattle.rules.specs.Postings.{every, counted};
ghost use Rattle.rules.specs.Table.{postings, well_formed};
ghost use Rattle.rules.specs.Orders.{changes, destinations, sources};
ghost use Rattle.rules.specs.Answers.{poisons};
ghost use Rattle.rules.specs.Publication.{then_sources};
ghost use Rattle.rules.specs.Calls.{head_with, record_after, outcome_of, prepare_work, rollback_work, removal_work, publish_work};
ghost use Rattle.steps.specs.Leaving.{StageIn};
ghost use Rattle.work.specs.Bringing.{brought};

use answers::flag_after;
use changes::Changes;
use rules::{Answer, Done, Head};
use steps_sources::{remove_sources, write_record};
use storage::Storage;
use table::count_postings;

// The answer that was reached, and the head beside the table as it now is.
fn done(head: Head, used: usize, answer: Answer) -> Done
    requires { used < 2 ^ 32 }
    ensures { result ≡ record { head = head_with head used (cond (poisons answer) 1 head.poisoned); answer = answer } }
{
    Done {
        head: Head {
            used: used as u32,
            poisoned: flag_after(answer, head.poisoned),
            ..head
        },
        answer,
    }
}

// The lent table of a well-formed head, with the strip by which its storage behaves. Head and table come from C apart, and what was
// checked of them is asked for in each call and used here once: a type that has it would be made by the checks only to be taken apart.
fn stored<'a, 's>(head: Head, table: &'a mut [u32], strip: &'s [u8]) -> Storage<'a, 's>
    requires { well_formed head table.old ≡ true }
    ensures same_reference { result.numbers.ghost_name ≡ table.entry.ghost_name }
    ensures same_numbers { result.numbers.now ≡ table.old }
    ensures used { result.used ≡ head.used }
    ensures strip { result.strip.now ≡ strip.now }
{
    Storage {
        numbers: table,
        used: head.used as usize,
        strip,
    }
}

// The destinations come in. The record is written only after the last insertion. That it has room is asked for from the check down to
// the one write: a type of list and record would be made for that alone.
fn bring(storage: &mut Storage, list: Changes, record: &mut [u32]) -> Answer
    requires { length (changes list.numbers.now) ≤ length «record».old }
    ensures stage { StageIn (brought storage.old (changes list.entry.numbers.now)) result storage.old storage.new }
    ensures few { (brought storage.old (changes list.entry.numbers.now)).read ≤ length (changes list.entry.numbers.now) * 2 + 1 }
    ensures record_list { «record».new ≡ record_after (brought storage.old (changes list.entry.numbers.now))
        (destinations (changes list.entry.numbers.now)) «record».old }
{
    let inserted = steps::prepare(storage, list)?;
    write_record(list, record);
    Ok(inserted)
}

// Sources stay until every destination is in. Three bytes for each change and one more are read at most.
#[tactic(auto, using(steps_sources::proofs::Removals::removing_rest, crate::proofs::Showing::left_after, crate::proofs::Showing::publish_few))]
fn bring_and_clear(storage: &mut Storage, list: Changes, record: &mut [u32]) -> Answer
    requires { length (changes list.numbers.now) ≤ length «record».old }
    ensures stage { StageIn
        (then_sources storage.old.strip.now (sources (changes list.entry.numbers.now))
        (brought storage.old (changes list.entry.numbers.now)))
        result storage.old storage.new }
    ensures few { (then_sources storage.old.strip.now (sources (changes list.entry.numbers.now))
        (brought storage.old (changes list.entry.numbers.now))).read
        ≤ length (changes list.entry.numbers.now) * 3 + 1 }
    ensures record_list { «record».new ≡ record_after (brought storage.old (changes list.entry.numbers.now))
        (destinations (changes list.entry.numbers.now)) «record».old }
{
    let inserted = bring(storage, list, record)?;
    remove_sources(storage, list, Ok(inserted))
}

// Accepted where every destination came in.
#[tactic(auto, using(crate::proofs::Showing::used_fits))]
pub fn prepare(
    head: Head,
    table: &mut [u32],
    list: Changes,
    strip: &[u8],
    record: &mut [u32],
) -> Done
    requires table_formed { well_formed head table.old ≡ true }
    requires places { length (changes list.numbers.now) ≤ length «record».old }
    ensures { outcome_of result table.new «record».new ≡ prepare_work head table.old (changes list.entry.numbers.now)
        strip.now «record».old }
{
    let mut storage = stored(head, table, strip);
    let answer = bring(&mut storage, list, record);
    done(head, storage.used, answer)
}

// Accepted where every destination came in and every source went.
#[tactic(auto, using(crate::proofs::Showing::used_fits))]
pub fn publish(
    head: Head,
    table: &mut [u32],
    list: Changes,
    strip: &[u8],
    record: &mut [u32],
) -> Done
    requires table_formed { well_formed head table.old ≡ true }
    requires places { length (changes list.numbers.now) ≤ length «record».old }
    ensures { outcome_of result table.new «record».new ≡ publish_work head table.old (changes list.entry.numbers.now)
        strip.now «record».old }
{
    let mut storage = stored(head, table, strip);
    let answer = bring_and_clear(&mut storage, list, record);
    done(head, storage.used, answer)
}

// Accepted where no removal failed, else 12 with the last change whose removal did.
#[tactic(auto, using(crate::proofs::Showing::used_fits))]
pub fn rollback(head: Head, table: &mut [u32], list: Changes, strip: &[u8], record: &[u32]) -> Done
    requires table_formed { well_formed head table.old ≡ true }
    requires record_in_bounds { every (λ n. ltb n (length (changes list.numbers.now))) «record».now ≡ true }
    ensures { outcome_of result table.new «record».now ≡ rollback_work head table.old (changes list.entry.numbers.now)
        strip.now «record».now }
{
    let mut storage = stored(head, table, strip);
    let undone = steps_undo::rollback(&mut storage, list, record);
    done(head, storage.used, undone.and(Ok(0)))
}

// Accepted where no removal failed, else 13 with the change whose removal did.
#[tactic(auto, using(crate::proofs::Showing::used_fits))]
pub fn remove(head: Head, table: &mut [u32], list: Changes, strip: &[u8]) -> Done
    requires { well_formed head table.old ≡ true }
    ensures { outcome_of result table.new [] ≡ removal_work head table.old (changes list.entry.numbers.now) strip.now [] }
{
    let mut storage = stored(head, table, strip);
    let answer = remove_sources(&mut storage, list, Ok(0));
    done(head, storage.used, answer)
}

// The number of postings, which fits: a table has at most 4,096.
pub fn count(head: Head, table: &[u32], binding: u32, key: u32) -> u32
    requires { well_formed head table.now ≡ true }
    ensures { result ≡ counted binding key (postings head.used table.now) }
{
    count_postings(table, head.used as usize, binding, key) as u32
}
