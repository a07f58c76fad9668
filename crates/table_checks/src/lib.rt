// Whether a head and a table are well formed, which answer 1 tells. A part of the posting table. `well_formed` is asked once for a
// whole call, and asks nothing itself: any numbers may come in.
#![tactic(auto)]

ghost use Rattle.std.specs.Prelude.{◌*◌, ◌≤◌, ◌≡◌, true, length, map, drop, eqb, ◌&&◌};
ghost use Rattle.rules.specs.Postings.{every, ascending, binding_below};
ghost use Rattle.rules.specs.Table.{postings, limits_hold, well_formed};
ghost use Rattle.table_postings.specs.Stored.{posting_of};

use rules::Head;
use table_postings::{compare, posting, rows};

// The limits that the code tests: the rules' own numbers.
pub const MOST_NUMBERS: usize = 12288;

pub const MOST_BINDINGS: u32 = 64;

// Each binding is below the count. In an ascending table the last has the greatest, so it alone is looked at.
#[tactic(auto, using(crate::proofs::Walks::last_within, crate::proofs::Walks::none_within))]
fn all_within(rows: &[[u32; 3]], bindings: u32) -> bool
    requires { ascending (map posting_of rows.now) ≡ true }
    ensures { result ≡ every (binding_below bindings) (map posting_of rows.now) }
{
    rows.last()
        .is_none_or(|last| posting(last).binding < bindings)
}

// The postings are strictly ascending.
fn ascends(rows: &[[u32; 3]]) -> bool
    ensures { result ≡ ascending (map posting_of rows.now) }
{
    rows.is_sorted_by(|row, next| compare(posting(row), posting(next)).is_lt())
}

// Every number is 0: the bits of all of them together are. Most tables pass, so the walk has no early way out, and goes by several
// numbers at once.
#[tactic(auto, using(crate::proofs::Walks::no_bits))]
fn all_zero(numbers: &[u32]) -> bool
    ensures { result ≡ every (eqb 0) numbers.now }
{
    numbers.iter().fold(0, |bits, number| bits | number) == 0
}

// The postings in use ascend below the binding count, and past them stands 0.
fn in_order(table: &[u32], used: usize, bindings: u32) -> bool
    requires { used * 3 ≤ length table.now }
    ensures { result ≡ (ascending (postings used table.now) && (every (binding_below bindings) (postings used table.now)
        && every (eqb 0) (drop (used * 3) table.now))) }
{
    let postings = rows(table, used);
    ascends(postings) && all_within(postings, bindings) && all_zero(&table[used * 3..])
}

// A length that is a multiple of 3 and within its limit, and a binding count within its own.
#[tactic(auto, using(crate::proofs::Walks::limit_tests))]
fn limits_hold(head: Head, table: &[u32]) -> bool
    ensures { result ≡ limits_hold head table.now }
{
    table.len() % 3 == 0 && table.len() <= MOST_NUMBERS && head.bindings <= MOST_BINDINGS
}

// The limits hold, used is at most the capacity, the postings ascend below the binding count, and past them stands 0. The head
// comes from outside: nothing is computed from used before it is known to be small.
#[tactic(auto, using(crate::proofs::Walks::tests))]
pub fn well_formed(head: Head, table: &[u32]) -> bool
    ensures { result ≡ well_formed head table.now }
{
    let used = head.used as usize;
    limits_hold(head, table)
        && head.poisoned <= 1
        && used <= table.len() / 3
        && in_order(table, used, head.bindings)
}
