// Whether the postings that an order names clash: two equal destinations, a destination that stands in the table, a source that is
// a destination; answers 7, 8 and 9. Each looks at the whole list before the next begins. An inner layer, not delivered.
#![tactic(auto)]

ghost use Rattle.std.specs.Prelude.{◌<◌, ◌≡◌, [], not, length, get_or};
ghost use Rattle.rules.specs.Postings.{present, same};
ghost use Rattle.rules.specs.Orders.{changes, destinations, sources, postings_of};
ghost use Rattle.rules.specs.Checks.{twice_check, present_check, overlap_check};
ghost use Rattle.clashes.specs.Keys.{goes_to, one_destination, destination_in, source_in};
ghost use Rattle.clashes.specs.Pairs.{seek};

use changes::Changes;
use rules::{Change, Failure, Posting};
use table::Postings;

// The two are one posting. The row first, since most changes of a list differ in it: where it differs, nothing more is compared.
// The derived `==` compares row and binding at once, and that costs the walks for 7 and 9 twice the time.
#[tactic(auto, using(crate::proofs::Named::row_first))]
fn same_posting(p: Posting, q: Posting) -> bool
    ensures { result ≡ same p q }
{
    if p.row != q.row {
        return false;
    }
    p.key == q.key && p.binding == q.binding
}

// The destination of the change is this posting.
fn goes_to(change: Change, p: Posting) -> bool
    ensures { result ≡ goes_to change p }
{
    change
        .after
        .is_some_and(|key| same_posting(change.posting(key), p))
}

// Two changes have one destination.
fn one_destination(earlier: Change, later: Change) -> bool
    ensures { result ≡ one_destination earlier later }
{
    later
        .after
        .is_some_and(|key| goes_to(earlier, later.posting(key)))
}

// 7 TWICE: the first two equal destinations in order of the later, then of the earlier.
#[tactic(auto, using(crate::proofs::Pairs::pairs_all, crate::proofs::Pairs::pairs_left, crate::proofs::Pairs::pairs_none, crate::proofs::Pairs::seek_left, crate::proofs::Pairs::seek_none))]
pub fn check_twice(list: Changes) -> Result<(), Failure>
    ensures { result ≡ twice_check (changes list.entry.numbers.now) }
{
    let mut pair = None;
    'pairs: for later in 0..list.len() {
        for earlier in 0..later {
            if one_destination(list.at(earlier), list.at(later)) {
                pair = Some((earlier, later));
                break 'pairs;
            }
        }
    }
    match pair {
        Some((earlier, later)) => Err(Failure::Twice(earlier as u32, later as u32)),
        None => Ok(()),
    }
}

// The destination of a change stands in the table.
fn is_present(standing: &Postings, change: Change) -> bool
    ensures { result ≡ destination_in change standing.now }
{
    match change.after {
        Some(key) => standing.contains(change.posting(key)),
        None => false,
    }
}

// 8 PRESENT: the first destination that stands in the table.
#[tactic(auto, using(crate::proofs::Named::presents_all, crate::proofs::Named::presents_left, crate::proofs::Named::presents_none))]
pub fn check_present(standing: &Postings, list: Changes) -> Result<(), Failure>
    ensures { result ≡ present_check standing.now (changes list.entry.numbers.now) }
{
    for i in 0..list.len() {
        if is_present(standing, list.at(i)) {
            return Err(Failure::Present(i as u32));
        }
    }
    Ok(())
}

// The posting is a destination of the list.
#[tactic(auto, using(crate::proofs::Named::present_left, crate::proofs::Named::present_none))]
fn is_destination(list: Changes, p: Posting) -> bool
    ensures { result ≡ present p (postings_of (destinations (changes list.entry.numbers.now))) }
{
    for i in 0..list.len() {
        if goes_to(list.at(i), p) {
            return true;
        }
    }
    false
}

// The source of a change is a destination of the list.
fn overlaps(list: Changes, change: Change) -> bool
    ensures { result ≡ source_in change (postings_of (destinations (changes list.entry.numbers.now))) }
{
    match change.before {
        Some(key) => is_destination(list, change.posting(key)),
        None => false,
    }
}

// 9 OVERLAP: the first source that is a destination of the list, its own change's or another's.
#[tactic(auto, using(crate::proofs::Named::overlaps_all, crate::proofs::Named::overlaps_left, crate::proofs::Named::overlaps_none))]
pub fn check_overlap(list: Changes) -> Result<(), Failure>
    ensures { result ≡ overlap_check (changes list.entry.numbers.now) }
{
    for i in 0..list.len() {
        if overlaps(list, list.at(i)) {
            return Err(Failure::Overlap(i as u32));
        }
    }
    Ok(())
}
