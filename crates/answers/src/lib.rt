// What follows from an answer alone. Nothing here has a `requires`.
#![tactic(auto)]

ghost use Rattle.std.specs.Prelude.{◌≡◌, cond};
ghost use Rattle.rules.specs.Answers.{poisons};

use rules::{Answer, Failure};

// 12 or 13: a removal failed, and the poison flag is set.
pub fn sets_poison(answer: Answer) -> bool
    ensures { result ≡ poisons answer }
{
    matches!(answer, Err(Failure::Undo(_) | Failure::Source(_)))
}

// The poison flag after an answer.
pub fn flag_after(answer: Answer, flag: u32) -> u32
    ensures { result ≡ cond (poisons answer) 1 flag }
{
    if sets_poison(answer) { 1 } else { flag }
}
