// One posting of the posting table: compared with another, read from its row of three numbers, written at a place. A part of the
// table: `table` finds and moves postings by it, `table_checks` tests them. An inner layer, not delivered: `rows` and `write` ask
// for places that are there.
#![tactic(auto)]

ghost use Rattle.std.specs.Prelude.{◌*◌, ◌+◌, ◌≤◌, ◌≡◌, length, map};
ghost use Rattle.rules.specs.Postings.{compared};
ghost use Rattle.rules.specs.Table.{postings};
ghost use Rattle.table_postings.specs.Stored.{posting_of, stored};

use rules::Posting;
use std::cmp::Ordering;

// By binding, key, row.
#[tactic(auto, using(laws::proofs::Ranks::derived_order))]
pub fn compare(p: Posting, q: Posting) -> Ordering
    ensures { result ≡ compared p q }
{
    p.cmp(&q)
}

// The posting whose numbers these are. With `write` the one that knows how a posting lies in the table.
pub fn posting(row: &[u32; 3]) -> Posting
    ensures { result ≡ posting_of row.now }
{
    let [binding, key, row] = *row;
    Posting { binding, key, row }
}

// The rows of the postings in use.
pub fn rows(table: &[u32], used: usize) -> &[[u32; 3]]
    requires { used * 3 ≤ length table.now }
    ensures { map posting_of result.now ≡ postings used table.now }
{
    let (rows, _) = table.as_chunks::<3>();
    &rows[..used]
}

// A posting written at a place.
pub fn write(table: &mut [u32], at: usize, p: Posting)
    requires { at * 3 + 3 ≤ length table.old }
    ensures { table.new ≡ stored (at * 3) p table.old }
{
    let first = at * 3;
    table[first..first + 3].copy_from_slice(&[p.binding, p.key, p.row]);
}
