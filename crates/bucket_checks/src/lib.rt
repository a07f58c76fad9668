// The checks of the bucket calls, in their order: the first that applies is given. An inner layer, not delivered.
#![tactic(auto)]

ghost use Rattle.std.specs.Prelude.{◌≡◌, ◌||◌, Ok, find, nat_le};
ghost use Rattle.bucket_rules.specs.Calls.{over_limits, short_output, short_scratch, range_check, refuse, checks};

use bucket_rules::Failure;

// The limits that the code tests: the rules' own numbers.
pub const MOST_INPUT: usize = 4096;

pub const MOST_BUCKETS: u32 = 65536;

// The input has too many numbers, or there are too many buckets.
#[tactic(auto, unfolding(bucket_rules::specs::Calls::over_limits))]
fn over_limits(input: &[u32], count: u32) -> bool
    ensures { result ≡ over_limits input.now count }
{
    input.len() > MOST_INPUT || count > MOST_BUCKETS
}

// The output is shorter than the smaller of input length and bucket count.
#[tactic(auto, unfolding(bucket_rules::specs::Calls::short_output))]
fn short_output(input: &[u32], count: u32, output: &[u32]) -> bool
    ensures { result ≡ short_output input.now count output.now }
{
    output.len() < input.len().min(count as usize)
}

// The scratch has no bit for some bucket.
#[tactic(auto, unfolding(bucket_rules::specs::Calls::short_scratch))]
fn short_scratch(count: u32, scratch: &[u32]) -> bool
    ensures { result ≡ short_scratch count scratch.now }
{
    scratch.len() < bitmaps::numbers_for(count)
}

// Refuses where a test applies. The lanes have the like for their own failures: one for both would be a crate for one line.
fn refuse(applies: bool, failure: Failure) -> Result<(), Failure>
    ensures { result ≡ refuse applies failure (Ok tt) }
{
    if applies { Err(failure) } else { Ok(()) }
}

// The first element that is not below the count.
fn first_over(count: u32, input: &[u32]) -> Option<u32>
    ensures { result ≡ find (λ element. nat_le count element) input.now }
{
    input.iter().copied().find(|element| *element >= count)
}

// Names the first element that is not below the count.
#[tactic(auto, using(crate::proofs::Finding::range_named, crate::proofs::Finding::range_passes))]
fn range_check(count: u32, input: &[u32]) -> Result<(), Failure>
    ensures { result ≡ range_check count input.now }
{
    match first_over(count, input) {
        Some(element) => Err(Failure::Range(element)),
        None => Ok(()),
    }
}

// The checks of either engine, in their order: all of them before anything is written.
#[tactic(auto, unfolding(bucket_rules::specs::Calls::checks))]
fn check(short: bool, input: &[u32], count: u32) -> Result<(), Failure>
    ensures { result ≡ checks short input.now count }
{
    refuse(over_limits(input, count), Failure::Limits)?;
    refuse(short, Failure::Room)?;
    range_check(count, input)
}

// The checks of the sorting engine.
pub fn sort_checks(input: &[u32], count: u32, output: &[u32]) -> Result<(), Failure>
    ensures { result ≡ checks (short_output input.now count output.now) input.now count }
{
    check(short_output(input, count, output), input, count)
}

// The checks of the bitmap engine.
pub fn bitmap_checks(
    input: &[u32],
    count: u32,
    output: &[u32],
    scratch: &[u32],
) -> Result<(), Failure>
    ensures { result ≡ checks (short_output input.now count output.now || short_scratch count scratch.now)
        input.now count }
{
    let short = short_output(input, count, output) || short_scratch(count, scratch);
    check(short, input, count)
}
