// The final entries: the head is lent and set in place, and the held guards are a lent list of guards. They are thin over the
// by-value core that `publish` calls too, which knows no list of guards; what they promise is said of its flat numbers.
// Any numbers may come in. Whatever decides anything is in `guarding`, in small functions over plain values.
#![tactic(auto)]

ghost use Rattle.std.specs.Prelude.{◌≡◌};
ghost use Rattle.std.specs.List.{list_any};
ghost use Rattle.guarding.specs.Asking.{is_guard, wanted_held, unheld_place};
ghost use Rattle.entry.specs.Promises.{PoisonPromise, HeldPromise, EntryPromise};

use rules::{Answer, Guard, Head};

// Sets the poison flag in place: counts of these indexes are withheld from now on.
pub fn poison_indexes(head: &mut Head)
    ensures { PoisonPromise head.old head.new }
{
    head.poisoned = 1;
}

// Some guard is the pair (binding, key).
fn is_among(guards: &[Guard], binding: u32, key: u32) -> bool
    ensures { result ≡ list_any (is_guard binding key) guards.now }
{
    guards
        .iter()
        .any(|guard| guarding::is_guard(*guard, binding, key))
}

// The pair (binding, key) is among the guards.
pub fn held(guards: &[Guard], binding: u32, key: u32) -> bool
    ensures { HeldPromise guards.now binding key result }
{
    is_among(guards, binding, key)
}

// A guard that is asked for is held; none need not be.
fn is_held(guards: &[Guard], wanted: Option<Guard>) -> bool
    ensures { result ≡ wanted_held guards.now wanted }
{
    wanted.is_none_or(|guard| held(guards, guard.binding, guard.key))
}

// The first place, two to a change, whose key is named and not held; or how many places there are. Where the poison flag is set
// none is asked for.
fn first_unheld(poisoned: u32, guards: &[Guard], list: &[u32]) -> usize
    ensures { result ≡ unheld_place poisoned guards.now list.now }
{
    let Some(list) = guarding::changes_asked(poisoned, list, guards.len()) else {
        return 0;
    };
    let places = list.len() * 2;
    for place in 0..places {
        if !is_held(guards, guarding::wanted_at(list.numbers, place)) {
            return place;
        }
    }
    places
}

// Publish: the head is stored in place as a whole, and where a removal failed the poison flag is set there.
pub fn publish(
    head: &mut Head,
    table: &mut [u32],
    changes: &[u32],
    guards: &[Guard],
    strip: &[u8],
    record: &mut [u32],
) -> Answer
    ensures { EntryPromise head.old table.old changes.now guards.now
        strip.now «record».old result head.new table.new «record».new }
{
    let unheld = first_unheld(head.poisoned, guards, changes);
    let done = guarding::publish_by_value(
        *head,
        table,
        changes,
        guards.len(),
        unheld,
        strip,
        record,
    );
    *head = done.head;
    if done.poisons {
        poison_indexes(head);
    }
    done.answer
}
