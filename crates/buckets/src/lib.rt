// The bucket calls: input, output and scratch lent, and the stamp test. Any numbers may come in: a call refuses by number and then
// writes nothing, or does the work that the bucket rules say. Each promise says of all that is seen afterwards that it is what the
// rules say.
#![tactic(auto)]

ghost use Rattle.buckets.specs.Promises.{SortPromise, BitmapPromise, PrecedesPromise};

use bucket_checks::{bitmap_checks, sort_checks};
use bucket_rules::Answer;

// Writes the distinct elements of the input into the output, ascending, by sorting. An accepted answer names how many they are.
pub fn canonical_buckets_sort(input: &[u32], count: u32, output: &mut [u32]) -> Answer
    ensures { SortPromise input.now count output.old result output.new }
{
    sort_checks(input, count, output)?;
    Ok(sorting::gather(input, output) as u32)
}

// The same by way of membership bits, which the scratch then holds.
pub fn canonical_buckets_bitmap(
    input: &[u32],
    count: u32,
    output: &mut [u32],
    scratch: &mut [u32],
) -> Answer
    ensures { BitmapPromise input.now count output.old scratch.old result
        output.new scratch.new }
{
    bitmap_checks(input, count, output, scratch)?;
    Ok(bitmaps::spread(input, count, output, scratch) as u32)
}

// A stamp precedes a snapshot when it is less.
#[tactic(auto, unfolding(bucket_rules::specs::Stamps::precedes))]
pub fn stamp_precedes_snapshot(stamp: u64, snapshot: u64) -> bool
    ensures { PrecedesPromise stamp snapshot result }
{
    stamp < snapshot
}
