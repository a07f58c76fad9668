// Publish by value, once its order has been checked and its guards looked at. Both forms of publish, that with flat numbers of
// guards and that with a list of guards, go this one way with what checks 1 to 6 answered. An inner layer, not delivered: what they
// have shown where they passed is asked for here and not tested again.
#![tactic(auto)]

ghost use Rattle.std.specs.Prelude.{◌≡◌, Ok, IfOk};
ghost use Rattle.rules.specs.Calls.{outcome_of};
ghost use Rattle.publish_core.specs.Core.{Ready, numbers_of, verdict_of, core_of};

use changes::Changes;
use rules::{Done, Failure, Head};

// 7 to 9, and then the work.
#[tactic(auto, unfolding(crate::specs::Core::core_of, rules::specs::Checks::first_refusal))]
fn publish_admitted(
    head: Head,
    table: &mut [u32],
    list: Changes,
    strip: &[u8],
    record: &mut [u32],
) -> Done
    requires { Ready head table.old list.numbers.now «record».old }
    ensures { outcome_of result table.new «record».new ≡ core_of head table.old
        list.entry.numbers.now (Ok tt) strip.now «record».old }
{
    match refusals::clashing(head, table, list) {
        Ok(()) => work::publish(head, table, list, strip, record),
        Err(clash) => Done::refused(head, clash),
    }
}

// What 1 to 6 refused is handed on, and then all is as before, whatever was lent; or else 7 to 9, and then the work.
#[tactic(auto, unfolding(crate::specs::Core::core_of, rules::specs::Checks::first_refusal))]
pub fn publish(
    head: Head,
    table: &mut [u32],
    admitted: Result<Changes, Failure>,
    strip: &[u8],
    record: &mut [u32],
) -> Done
    requires { IfOk admitted (λ list. Ready head table.old list.numbers.now «record».old) }
    ensures { outcome_of result table.new «record».new ≡ core_of head table.old
        (numbers_of admitted.entry) (verdict_of admitted.entry) strip.now «record».old }
{
    match admitted {
        Ok(list) => publish_admitted(head, table, list, strip, record),
        Err(why) => Done::refused(head, why),
    }
}
