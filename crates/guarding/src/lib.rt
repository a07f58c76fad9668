// What the lent forms decide, over plain values: which keys an order asks the guards for, and the by-value call. An inner layer, not
// delivered.
#![tactic(auto)]

ghost use Rattle.std.specs.Prelude.{◌*◌, ◌<◌, ◌≡◌, length, MatchOption};
ghost use Rattle.rules.specs.Orders.{changes};
ghost use Rattle.guarding.specs.Asking.{is_guard, wanted_of, wanted_at, keys_asked};
ghost use Rattle.rules.specs.Calls.{outcome_of};
ghost use Rattle.guarding.specs.InPlace.{value_of, ByValuePromise};

use changes::{Changes, change_at};
use checks::MOST_GUARDS;
use rules::{Answer, Done, Guard, Head};

// What a publish answers, the head that it leaves but for the poison flag, which is as it was lent, and whether that is to be set: told
// apart for `poison_indexes`, which sets it in place, as `ByValuePromise` says.
#[derive(Clone, Copy)]
pub struct Published {
    pub answer: Answer,
    pub head: Head,
    pub poisons: bool,
}

// The guard is the pair (binding, key).
pub fn is_guard(guard: Guard, binding: u32, key: u32) -> bool
    ensures { result ≡ is_guard binding key guard }
{
    checks::is_pair([guard.binding, guard.key], binding, key)
}

// The changes whose keys are asked for: none where the poison flag is set, which 1 or 2 refuses, or beside lists that are over their
// limits, which 3 refuses. So no guard is walked for these.
pub fn changes_asked(poisoned: u32, list: &[u32], guards: usize) -> Option<Changes>
    ensures { MatchOption result (keys_asked poisoned guards list.now ≡ 0)
        (λ all. (all.numbers.now ≡ list.now) × (keys_asked poisoned guards list.now ≡ length (changes list.now) * 2)) }
{
    if poisoned == 0 && guards <= MOST_GUARDS {
        Changes::few(list)
    } else {
        None
    }
}

// The guard that a key of a change asks for.
fn as_wanted(binding: u32, key: Option<u32>) -> Option<Guard>
    ensures { result ≡ wanted_of binding key }
{
    key.map(|key| Guard { binding, key })
}

// The guard that is asked for at a place, two places to a change: its before, its after.
pub fn wanted_at(list: &[u32], place: usize) -> Option<Guard>
    requires { place < length (changes list.now) * 2 }
    ensures { result ≡ wanted_at (changes list.now) place }
{
    let change = change_at(list, place / 2);
    let key = if place % 2 == 0 {
        change.before
    } else {
        change.after
    };
    as_wanted(change.binding, key)
}

// The core beside so many guards and the first place whose key they do not hold.
#[tactic(auto, using(publish_core::proofs::Publishing::admitted_ready, publish_core::proofs::Publishing::core_admitted))]
fn publish_beside(
    head: Head,
    table: &mut [u32],
    list: &[u32],
    guards: usize,
    unheld: usize,
    strip: &[u8],
    record: &mut [u32],
) -> Done
    ensures { outcome_of result table.new «record».new ≡ value_of head table.old list.now guards unheld strip.now «record».old }
{
    let paired = guards <= MOST_GUARDS;
    let admitted = refusals::of_publish_beside(
        head,
        table,
        list,
        paired,
        unheld / 2,
        strip,
        record,
    );
    publish_core::publish(head, table, admitted, strip, record)
}

// The by-value call: the head comes back with the poison flag as it was lent, and whether it is to be set is told apart.
pub fn publish_by_value(
    head: Head,
    table: &mut [u32],
    list: &[u32],
    guards: usize,
    unheld: usize,
    strip: &[u8],
    record: &mut [u32],
) -> Published
    ensures { ByValuePromise head table.old list.now guards unheld strip.now
        «record».old result table.new «record».new }
{
    let done = publish_beside(head, table, list, guards, unheld, strip, record);
    let after = done.head;
    Published {
        answer: done.answer,
        head: Head {
            poisoned: head.poisoned,
            ..after
        },
        poisons: after.poisoned == 1,
    }
}
