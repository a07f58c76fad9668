// Prepare, step by step, as storage behaves by the strip. `steps_undo` takes back what it inserted, and `steps_sources` has what
// follows the last insertion. An inner layer, not delivered.
#![tactic(auto)]

ghost use Rattle.std.specs.Prelude.{◌+◌, ◌*◌, ◌≤◌, ◌≡◌, [], Ok, Err, length};
ghost use Rattle.rules.specs.Table.{capacity};
ghost use Rattle.rules.specs.Orders.{changes, destinations};
ghost use Rattle.rules.specs.Publication.{undoing, not_inserted, preparing};
ghost use Rattle.storage.specs.Leaving.{holding};
ghost use Rattle.steps_undo.specs.Leaving.{backward, in_order};
ghost use Rattle.steps.specs.Leaving.{blamed_on, StageIn};

use changes::Changes;
use rules::{Answer, Failure, Fault};
use steps_undo::undo_below;
use storage::Storage;

// The answer of a change whose insertion met a fault.
fn blamed(fault: Fault, change: u32) -> Failure
    ensures { result ≡ blamed_on fault change }
{
    match fault {
        Fault::Store => Failure::Store(change),
        Fault::Full => Failure::Full(change),
    }
}

// A change could not be inserted: all before it is undone. The answer says why, or 12 where the undo failed.
fn not_inserted(storage: &mut Storage, list: Changes, change: usize, fault: Fault) -> Failure
    requires { change ≤ length (changes list.numbers.now) }
    ensures stage { StageIn
        (not_inserted (blamed_on fault change) change
        (undoing storage.old.strip.now (backward in_order change (changes list.entry.numbers.now)) (Ok tt) 0
        (holding storage.old)))
        (Err result) storage.old storage.new }
    ensures few { (not_inserted (blamed_on fault change) change
        (undoing storage.old.strip.now (backward in_order change (changes list.entry.numbers.now)) (Ok tt) 0
        (holding storage.old))).read ≤ change }
{
    match undo_below(storage, list, change) {
        Ok(()) => blamed(fault, change as u32),
        Err(_) => Failure::Undo(change as u32),
    }
}

// Prepare: the destinations go in, up the list. At a failed insertion all is undone. It reads one byte for each insertion, and one for
// each removal of the undo.
#[tactic(auto, using(crate::proofs::Reading::preparing_few))]
pub fn prepare(storage: &mut Storage, list: Changes) -> Answer
    ensures stage { StageIn
        (preparing (capacity storage.old.numbers.now) storage.old.strip.now
        (destinations (changes list.entry.numbers.now)) [] 0 (holding storage.old))
        result storage.old storage.new }
    ensures few { (preparing (capacity storage.old.numbers.now) storage.old.strip.now
        (destinations (changes list.entry.numbers.now)) [] 0 (holding storage.old)).read
        ≤ length (changes list.entry.numbers.now) * 2 + 1 }
{
    let mut inserted = 0;
    for i in 0..list.len() {
        let change = list.at(i);
        let Some(key) = change.after else {
            continue;
        };
        if let Err(fault) = storage.insert(change.posting(key)) {
            return Err(not_inserted(storage, list, i, fault));
        }
        inserted += 1;
    }
    Ok(inserted)
}
