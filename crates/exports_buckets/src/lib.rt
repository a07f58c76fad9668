// The bucket calls and the stamp test, as C and Rust call them: each under a plain name, over numbers and lent lists. No enum
// crosses. Any numbers may come in. Each promise is that of the call behind it, spoken of the numbers that cross.
// `include/asdrifen.h` tells a C user the same.
#![tactic(auto)]

ghost use Rattle.std.specs.Prelude.{◌≡◌};
ghost use Rattle.bucket_rules.specs.Answers.{told_of};
ghost use Rattle.exports_buckets.specs.Promises.{three_numbers, SortPromise, BitmapPromise, PrecedesPromise};

use rules::Told;

// The numbers of a bucket call's answer. No such answer names a second number. A function and no `From`: both types are of crates below.
fn bucket_numbers(answer: bucket_rules::Answer) -> Told
    ensures { result ≡ three_numbers (told_of answer) }
{
    let numbers = bucket_rules::Told::from(answer);
    Told {
        answer: numbers.answer,
        named: numbers.named,
        other: 0,
    }
}

// Writes the distinct elements of the input into the output, ascending, by sorting.
#[unsafe(no_mangle)]
pub extern "C" fn asdrifen_canonical_buckets_sort(
    input: &[u32],
    count: u32,
    output: &mut [u32],
) -> Told
    ensures { SortPromise input.now count output.old result output.new }
{
    let answer = buckets::canonical_buckets_sort(input, count, output);
    bucket_numbers(answer)
}

// The same by way of membership bits, which the scratch then holds.
#[unsafe(no_mangle)]
pub extern "C" fn asdrifen_canonical_buckets_bitmap(
    input: &[u32],
    count: u32,
    output: &mut [u32],
    scratch: &mut [u32],
) -> Told
    ensures { BitmapPromise input.now count output.old scratch.old result
        output.new scratch.new }
{
    let answer = buckets::canonical_buckets_bitmap(input, count, output, scratch);
    bucket_numbers(answer)
}

// 1 where the stamp is less than the snapshot, else 0.
#[unsafe(no_mangle)]
pub extern "C" fn asdrifen_stamp_precedes_snapshot(stamp: u64, snapshot: u64) -> u32
    ensures { PrecedesPromise stamp snapshot result }
{
    u32::from(buckets::stamp_precedes_snapshot(stamp, snapshot))
}
