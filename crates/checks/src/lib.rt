// The walks over what an order lends: change list, guards and record; answers 3, 6 and 14. Each looks at its whole list before the
// next begins. An inner layer, not delivered.
#![tactic(auto)]

ghost use Rattle.std.specs.Prelude.{◌+◌, ◌*◌, ◌≡◌, ◌<◌, ◌↔◌, not, ◌&&◌, length, eqb, ltb, true, false, IsOk, IsErr, Option, IsNone, IsSome, IfSome};
ghost use Rattle.rules.specs.Orders.{proper_key, proper_changes, proper_guards, proper_lists, guards, changes, held};
ghost use Rattle.rules.specs.Checks.{key_held, guarded, guard_check, recordable, record_check};
ghost use Rattle.std.specs.List.{list_all, list_any};
ghost use Rattle.checks.specs.Keys.{proper_keys, is_pair, is_new_at};
ghost use Rattle.checks.specs.Guarding.{keys_held, bindings_from};

use changes::Changes;
use rules::{Change, Failure};

// The limit that the code tests: the rules' own number.
pub const MOST_GUARDS: usize = 1024;

// A flag is 0 or 1; with flag 0 the key is 0.
fn proper_key(flag: u32, key: u32) -> bool
    ensures { result ≡ proper_key flag key }
{
    if flag == 0 { key == 0 } else { flag == 1 }
}

// Both keys of each change, by its six numbers.
fn all_proper(changes: &[[u32; 6]]) -> bool
    ensures { result ≡ list_all proper_keys changes.now }
{
    changes.iter().all(|change| proper_key(change[2], change[3])
        && proper_key(change[4], change[5]))
}

// Whole changes, and each flag and key as it must be.
#[tactic(auto, using(crate::proofs::Shape::proper_by_chunks, crate::proofs::Shape::proper_not))]
fn proper_changes(list: &[u32]) -> bool
    ensures { result ≡ proper_changes list.now }
{
    let (changes, rest) = list.as_chunks::<6>();
    rest.is_empty() && all_proper(changes)
}

// Whole pairs, not over their limit.
#[tactic(auto, using(crate::proofs::Guards::guards_length), unfolding(rules::specs::Orders::proper_guards))]
pub fn proper_guards(pairs: &[u32]) -> bool
    ensures { result ≡ proper_guards pairs.now }
{
    pairs.len() % 2 == 0 && pairs.len() / 2 <= MOST_GUARDS
}

// 3 LIST passes, beside guards that are proper or not: these are the changes. The limit comes first, so that a list of any length
// is judged at once.
#[tactic(auto, using(crate::proofs::Shape::lists_over, crate::proofs::Shape::lists_unpaired, crate::proofs::Shape::lists_within))]
pub fn proper_lists(list: &[u32], paired: bool) -> Option<Changes>
    ensures passes { IsSome result ↔ (proper_lists list.now paired ≡ true) }
    ensures within { IfSome result (λ all. all.numbers.now ≡ list.now) }
{
    let changes = Changes::few(list)?;
    if paired && proper_changes(list) {
        Some(changes)
    } else {
        None
    }
}

// A binding and a key as one number.
fn joined(binding: u32, key: u32) -> u64
    ensures { result ≡ binding + key * 4294967296 }
{
    u64::from(binding) + u64::from(key) * 4294967296
}

// A guard is the pair (binding, key). They are compared as one number: of two numbers the second would be asked for only where the
// first is right, and which guards have the binding and not the key is what a processor guesses badly.
#[tactic(auto, using(crate::proofs::Guards::pair_as_one))]
pub fn is_pair(pair: [u32; 2], binding: u32, key: u32) -> bool
    ensures { result ≡ is_pair binding key pair }
{
    joined(binding, key) == joined(pair[0], pair[1])
}

// The pair (binding, key) is among these.
fn is_among(pairs: &[[u32; 2]], binding: u32, key: u32) -> bool
    ensures { result ≡ list_any (is_pair binding key) pairs.now }
{
    pairs.iter().any(|pair| is_pair(*pair, binding, key))
}

// The pair (binding, key) is among the guards, which lie two numbers to each.
#[tactic(auto, using(crate::proofs::Guards::held_by_chunks))]
fn is_held(pairs: &[u32], binding: u32, key: u32) -> bool
    ensures { result ≡ held binding key (guards pairs.now) }
{
    is_among(pairs.as_chunks::<2>().0, binding, key)
}

// A named key is held; none need not be.
fn key_held(pairs: &[u32], binding: u32, key: Option<u32>) -> bool
    ensures { result ≡ key_held binding key (guards pairs.now) }
{
    key.is_none_or(|key| is_held(pairs, binding, key))
}

// A named before and after are held.
fn keys_held(pairs: &[u32], change: Change) -> bool
    ensures { result ≡ keys_held (guards pairs.now) change }
{
    key_held(pairs, change.binding, change.before) && key_held(pairs, change.binding, change.after)
}

// Its binding is below the count, and a named before and after are held.
#[tactic(auto, using(crate::proofs::Guarding::guarded_parts))]
fn is_guarded(bindings: u32, pairs: &[u32], change: Change) -> bool
    ensures { result ≡ guarded bindings (guards pairs.now) change }
{
    change.binding < bindings && keys_held(pairs, change)
}

// 6 GUARD: the first change that is not guarded.
#[tactic(auto, using(crate::proofs::Failing::guards_all, crate::proofs::Failing::guards_left, crate::proofs::Failing::guards_none))]
pub fn check_guards(bindings: u32, list: Changes, pairs: &[u32]) -> Result<(), Failure>
    ensures { result ≡ guard_check bindings (guards pairs.now) (changes list.entry.numbers.now) }
{
    for i in 0..list.len() {
        if !is_guarded(bindings, pairs, list.at(i)) {
            return Err(Failure::Guard(i as u32));
        }
    }
    Ok(())
}

// It is not the change whose key is not held, and its binding is below the count.
fn is_bound(bindings: u32, unheld: usize, number: usize, change: Change) -> bool
    ensures { result ≡ (not (eqb number unheld) && ltb change.binding bindings) }
{
    number != unheld && change.binding < bindings
}

// 6 GUARD where the first change with a key that is not held is known: that one, or one before it whose binding is not below
// the count. Where none is, the number is that of no change: the words of `bindings_from`, and of `ByValuePromise` above it.
#[tactic(auto, using(crate::proofs::Guarding::bindings_left, crate::proofs::Guarding::bindings_none))]
pub fn check_bindings(bindings: u32, list: Changes, unheld: usize) -> Result<(), Failure>
    ensures { result ≡ bindings_from bindings unheld 0 (changes list.entry.numbers.now) }
{
    for number in 0..list.len() {
        if !is_bound(bindings, unheld, number, list.at(number)) {
            return Err(Failure::Guard(number as u32));
        }
    }
    Ok(())
}

// A number of a record means a destination.
#[tactic(auto, unfolding(rules::specs::Checks::recordable))]
fn is_recordable(list: Changes, number: u32) -> bool
    ensures { result ≡ recordable (changes list.entry.numbers.now) number }
{
    let number = number as usize;
    number < list.len() && list.at(number).after.is_some()
}

// What stands at a place of a record means a destination, and stands at no earlier place.
#[tactic(auto, using(lent_lists::proofs::Among::among_by_any))]
fn is_new_at(list: Changes, record: &[u32], place: usize) -> bool
    requires { place < length «record».now }
    ensures { result ≡ is_new_at (changes list.entry.numbers.now) «record».now place }
{
    let number = record[place];
    is_recordable(list, number) && !record[..place].contains(&number)
}

// 14 RECORD: the first place that means no destination, or whose number is already at an earlier place. No record is
// longer than the change list without such a place among its first, so places fit a u32.
pub fn check_record(list: Changes, record: &[u32]) -> Result<(), Failure>
    ensures { result ≡ record_check (changes list.entry.numbers.now) «record».now }
{
    for place in 0..record.len() {
        if !is_new_at(list, record, place) {
            return Err(Failure::Record(place as u32));
        }
    }
    Ok(())
}
