// What follows the last insertion: the record is written, and the sources are removed, step by step, as storage behaves by the
// strip. A part of the steps. An inner layer, not delivered.
#![tactic(auto)]

ghost use Rattle.std.specs.Prelude.{◌≤◌, ◌≡◌, length};
ghost use Rattle.lent_lists.specs.Written.{written};
ghost use Rattle.rules.specs.Orders.{changes, destinations, sources, change_numbers};
ghost use Rattle.rules.specs.Publication.{removing};
ghost use Rattle.storage.specs.Leaving.{holding};
ghost use Rattle.steps.specs.Leaving.{StageIn};

use changes::Changes;
use rules::{Answer, Failure};
use storage::Storage;

// The record of a prepare: the numbers of the changes with a destination, ascending. It is written after the last insertion.
pub fn write_record(list: Changes, record: &mut [u32])
    requires { length (changes list.numbers.now) ≤ length «record».old }
    ensures { «record».new ≡ written (change_numbers (destinations (changes list.entry.numbers.now)))
        «record».old }
{
    // The place is counted apart, since a change with no destination takes none, and the number of each is what is written: a chain of
    // `filter` and `zip` would say the same in more words.
    let mut place: usize = 0;
    for number in 0..list.len() {
        let Some(_) = list.at(number).after else {
            continue;
        };
        record[place] = number as u32;
        place += 1;
    }
}

// Source removal: up the list over the befores, to the first failure. The answer is this one where none failed: `removing` of the rules
// takes it, since publish goes on from what prepare answered. It reads one byte for each source at most.
#[tactic(auto, using(crate::proofs::Reading::removing_few))]
pub fn remove_sources(storage: &mut Storage, list: Changes, clear: Answer) -> Answer
    ensures stage { StageIn
        (removing storage.old.strip.now clear (sources (changes list.entry.numbers.now)) 0 (holding storage.old))
        result storage.old storage.new }
    ensures few { (removing storage.old.strip.now clear (sources (changes list.entry.numbers.now)) 0 (holding storage.old)).read
        ≤ length (changes list.entry.numbers.now) }
{
    for number in 0..list.len() {
        let change = list.at(number);
        let Some(key) = change.before else {
            continue;
        };
        match storage.remove(change.posting(key)) {
            Ok(()) => {}
            Err(_) => return Err(Failure::Source(number as u32)),
        }
    }
    clear
}
