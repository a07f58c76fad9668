// The lent forms, as C and Rust call them: the head is lent and set in place, and the held guards are a list of guards. No enum
// crosses. Any numbers may come in. Each promise is that of the call behind it, spoken of the numbers that cross.
// `include/asdrifen.h` tells a C user the same.
#![tactic(auto)]

ghost use Rattle.entry.specs.Promises.{PoisonPromise};
ghost use Rattle.exports_lent.specs.Promises.{LentPublishPromise, HeldPromise};

use rules::{Guard, Head, Told};

// Publish with the head set in place and the held guards as a list of guards.
#[unsafe(no_mangle)]
pub extern "C" fn asdrifen_publish(
    head: &mut Head,
    table: &mut [u32],
    changes: &[u32],
    guards: &[Guard],
    strip: &[u8],
    record: &mut [u32],
) -> Told
    ensures { LentPublishPromise head.old table.old changes.now guards.now
        strip.now «record».old result head.new table.new «record».new }
{
    entry::publish(head, table, changes, guards, strip, record).into()
}

// Sets the poison flag in place.
#[unsafe(no_mangle)]
pub extern "C" fn asdrifen_poison_indexes(head: &mut Head)
    ensures { PoisonPromise head.old head.new }
{
    entry::poison_indexes(head);
}

// 1 where the pair (binding, key) is among the guards, else 0.
#[unsafe(no_mangle)]
pub extern "C" fn asdrifen_held(guards: &[Guard], binding: u32, key: u32) -> u32
    ensures { HeldPromise guards.now binding key result }
{
    u32::from(entry::held(guards, binding, key))
}
