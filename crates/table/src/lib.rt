// The posting table over a lent list of numbers, three to a posting: found, inserted, removed, counted. An inner layer, not
// delivered: it asks for a table in order (Ordered), which `table_checks` has tested once for a whole call.
#![tactic(auto)]

ghost use Rattle.std.specs.Prelude.{◌*◌, ◌+◌, ◌<◌, ◌≤◌, ◌≡◌, length};
ghost use Rattle.std.specs.List.Sorted.{IsSearchInRange};
ghost use Rattle.rules.specs.Postings.{present, inserted, removed, counted};
ghost use Rattle.rules.specs.Table.{capacity, postings};
ghost use Rattle.table.specs.Holding.{Carries, Ordered, place_of};

use rules::Posting;
use std::marker::Model;
use table_postings::{compare, posting, rows, write};

// The postings of a table, to be read.
#[derive(Drop)]
pub struct Postings<'a> {
    rows: &'a [[u32; 3]],
}

impl<'a> Model for Postings<'a> {
    ghost use Rattle.std.specs.Prelude.{◌≡◌, List, true, map};
    ghost use Rattle.rules.specs.declared.Posting.{Posting};
    ghost use Rattle.rules.specs.Postings.{ascending};
    ghost use Rattle.table_postings.specs.Stored.{posting_of};

    ghost Value = { List Posting };

    ghost view = { λ t. map posting_of t.rows.now };

    ghost invariant = { λ t. ascending (map posting_of t.rows.now) ≡ true };
}

impl<'a> Postings<'a> {
    // Those that a table in order has.
    pub fn new(numbers: &'a [u32], used: usize) -> Postings<'a>
        requires { Ordered numbers.now used }
        ensures { result ≡ postings used numbers.now }
    {
        Postings {
            rows: rows(numbers, used),
        }
    }

    // Where a posting stands, or would.
    pub fn find(&self, p: Posting) -> Result<usize, usize>
        ensures { (result ≡ place_of p self.now) × IsSearchInRange result (length self.now) }
    {
        self.rows.binary_search_by(|row| compare(posting(row), p))
    }

    // The posting stands in the table.
    #[tactic(auto, using(crate::proofs::Places::found_present))]
    pub fn contains(&self, p: Posting) -> bool
        ensures { result ≡ present p self.now }
    {
        self.find(p).is_ok()
    }
}

// The posting at its place, those after it one further, and the new used. A table that has it stays. This and `remove` go by the lent
// list and how many it has: as methods of a struct inside `Storage` they were tried, and what a `&mut` two structs deep leaves does not
// come back to the lent list in the proof.
pub fn insert(numbers: &mut [u32], used: usize, p: Posting) -> usize
    requires { Ordered numbers.old used × (used < capacity numbers.old) }
    ensures { Carries numbers.new result (inserted p (postings used numbers.old)) }
{
    match Postings::new(numbers, used).find(p) {
        Ok(_) => used,
        Err(at) => {
            numbers.copy_within(at * 3..used * 3, at * 3 + 3);
            write(numbers, at, p);
            used + 1
        }
    }
}

// The posting gone, those after it one back, zeros in the place set free, and the new used. A table that lacks it stays.
pub fn remove(numbers: &mut [u32], used: usize, p: Posting) -> usize
    requires { Ordered numbers.old used }
    ensures { Carries numbers.new result (removed p (postings used numbers.old)) }
{
    match Postings::new(numbers, used).find(p) {
        Err(_) => used,
        Ok(at) => {
            numbers.copy_within(at * 3 + 3..used * 3, at * 3);
            write(
                numbers,
                used - 1,
                Posting {
                    binding: 0,
                    key: 0,
                    row: 0,
                },
            );
            used - 1
        }
    }
}

// How many postings have this binding and key.
pub fn count_postings(numbers: &[u32], used: usize, binding: u32, key: u32) -> usize
    requires { used * 3 ≤ length numbers.now }
    ensures { result ≡ counted binding key (postings used numbers.now) }
{
    rows(numbers, used)
        .iter()
        .filter(|row| binding == row[0] && key == row[1])
        .count()
}
