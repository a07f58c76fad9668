// A lent change list, six numbers to each change, read change by change. An inner layer, not delivered.
#![tactic(auto)]

ghost use Rattle.std.specs.Prelude.{◌≡◌, ◌<◌, ◌≤◌, ◌↔◌, length, get_or, IsNone, IfSome};
ghost use Rattle.rules.specs.Limits.{most_changes};
ghost use Rattle.rules.specs.Orders.{key_of, changes, no_change};

use rules::Change;

// The limit that the code tests: the rules' own number.
pub const MOST_CHANGES: usize = 256;

// A change list within its limit, so that each change's number fits a u32.
#[derive(Clone, Copy)]
pub struct Changes<'a> {
    pub numbers: &'a [u32],
    ghost within_limit: { length (changes numbers.now) ≤ most_changes },
}

// A flag and a key: with flag 0 there is none.
fn key_of(flag: u32, key: u32) -> Option<u32>
    ensures { result ≡ key_of flag key }
{
    if flag == 0 { None } else { Some(key) }
}

// How many changes a list of any length has.
#[tactic(auto, using(crate::proofs::Walk::changes_length))]
pub fn count_of(numbers: &[u32]) -> usize
    ensures { result ≡ length (changes numbers.now) }
{
    numbers.len() / 6
}

// The change of a list with a number.
#[tactic(auto, using(crate::proofs::Walk::changes_length))]
pub fn change_at(numbers: &[u32], number: usize) -> Change
    requires { number < length (changes numbers.now) }
    ensures { result ≡ get_or (changes numbers.now) number no_change }
{
    let first = number * 6;
    Change {
        binding: numbers[first],
        row: numbers[first + 1],
        before: key_of(numbers[first + 2], numbers[first + 3]),
        after: key_of(numbers[first + 4], numbers[first + 5]),
    }
}

impl<'a> Changes<'a> {
    // The changes of a list, unless they are over their limit. A list of any length is judged at once.
    pub fn few(numbers: &'a [u32]) -> Option<Changes<'a>>
        ensures over { IsNone result ↔ (most_changes < length (changes numbers.now)) }
        ensures within { IfSome result (λ list. list.numbers.now ≡ numbers.now) }
    {
        if count_of(numbers) > MOST_CHANGES {
            return None;
        }
        Some(Changes { numbers })
    }

    pub fn len(self) -> usize
        ensures { result ≡ length (changes self.entry.numbers.now) }
    {
        count_of(self.numbers)
    }

    // The change with a number.
    pub fn at(self, number: usize) -> Change
        requires { number < length (changes self.numbers.now) }
        ensures { result ≡ get_or (changes self.entry.numbers.now) number no_change }
    {
        change_at(self.numbers, number)
    }
}
