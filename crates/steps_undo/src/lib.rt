// The undo of insertions, as storage behaves by the strip: of one change, of the changes below one, of the changes of a record,
// which is rollback. A part of the steps. An inner layer, not delivered.
#![tactic(auto)]

ghost use Rattle.std.specs.Prelude.{◌≤◌, ◌≡◌, [], Ok, true, reverse, length, ltb};
ghost use Rattle.rules.specs.Postings.{every};
ghost use Rattle.rules.specs.Orders.{changes, recorded, named, destination_of};
ghost use Rattle.rules.specs.Publication.{undoing};
ghost use Rattle.storage.specs.Leaving.{holding};
ghost use Rattle.steps_undo.specs.Leaving.{UndoneIn, backward, in_order};

use changes::Changes;
use rules::{Change, Failure};
use storage::Storage;

// The destination of one change is removed again. A failure is kept, with the change, and what comes after goes on.
#[tactic(auto, unfolding(rules::specs::Publication::undoing))]
fn undo_change(
    storage: &mut Storage,
    number: u32,
    change: Change,
    so_far: Result<(), Failure>,
) -> Result<(), Failure>
    ensures undone { UndoneIn
        (undoing storage.old.strip.now (named number change (destination_of change) []) so_far 0
        (holding storage.old))
        result storage.old storage.new }
    ensures few { (undoing storage.old.strip.now (named number change (destination_of change) []) so_far 0
        (holding storage.old)).read ≤ 1 }
{
    let Some(key) = change.after else {
        return so_far;
    };
    match storage.remove(change.posting(key)) {
        Ok(()) => so_far,
        Err(_) => Err(Failure::Undo(number)),
    }
}

// The destinations of the changes below one are removed, from the last to the first. It reads one byte for each at most.
#[tactic(auto, using(crate::proofs::Undos::undo_few))]
pub fn undo_below(storage: &mut Storage, list: Changes, change: usize) -> Result<(), Failure>
    requires { change ≤ length (changes list.numbers.now) }
    ensures undone { UndoneIn
        (undoing storage.old.strip.now (backward in_order change (changes list.entry.numbers.now)) (Ok tt) 0
        (holding storage.old))
        result storage.old storage.new }
    ensures few { (undoing storage.old.strip.now (backward in_order change (changes list.entry.numbers.now)) (Ok tt) 0
        (holding storage.old)).read ≤ change }
{
    let mut so_far = Ok(());
    for number in (0..change).rev() {
        so_far = undo_change(storage, number as u32, list.at(number), so_far);
    }
    so_far
}

// Rollback: the destinations of a record are removed, from its end to its start. It reads one byte for each at most.
#[tactic(auto, using(crate::proofs::Undos::rollback_few))]
pub fn rollback(storage: &mut Storage, list: Changes, record: &[u32]) -> Result<(), Failure>
    requires { every (λ n. ltb n (length (changes list.numbers.now))) «record».now ≡ true }
    ensures undone { UndoneIn
        (undoing storage.old.strip.now (reverse (recorded (changes list.entry.numbers.now) «record».now)) (Ok tt) 0
        (holding storage.old))
        result storage.old storage.new }
    ensures few { (undoing storage.old.strip.now (reverse (recorded (changes list.entry.numbers.now) «record».now)) (Ok tt) 0
        (holding storage.old)).read ≤ length «record».now }
{
    let mut so_far = Ok(());
    // Over places: with `record.iter().rev()` the proof did not close, since its clauses don't say at which place an item stands.
    for place in (0..record.len()).rev() {
        let number = record[place];
        so_far = undo_change(storage, number, list.at(number as usize), so_far);
    }
    so_far
}
