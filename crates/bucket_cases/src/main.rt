// Runs the bucket calls on the cases that its input lists, and writes a line for each: the call and the case's name; then
// of the two engines the answer, what it names and the whole output after it, and of the bitmap the whole scratch too; of
// the stamp test yes or no. What the input may say, and how lists are written, stands in crate `case_text`.
#![tactic(auto)]

use bucket_rules::Answer;
use case_text::cases::FixedCases;
use case_text::lists::{List, ListError};
use case_text::writing::Listed;
use case_text::{cases, lists};
use std::io::{self, Write};

/// The room of the output, and of the scratch.
const OUTPUT: usize = 4200;

const SCRATCH: usize = 2100;

/// A bucket call.
#[derive(Clone, Copy)]
enum Call {
    Sort,
    Bitmap,
    Precedes,
}

/// The lists: the bucket count, for the stamp test two numbers of 64 bits, each said as its high half and its low half, and
/// the three lists that are lent to the engines. Each of these has room for somewhat more than the rules allow or ask for,
/// so that the cases can go beyond them.
#[derive(Drop)]
struct Lists {
    count: [u32; 1],
    stamp: [u32; 2],
    snapshot: [u32; 2],
    input: List<u32, 4200>,
    output: List<u32, OUTPUT>,
    scratch: List<u32, SCRATCH>,
}

/// The number of 64 bits that two halves say.
fn joined([high, low]: [u32; 2]) -> u64 {
    (u64::from(high) << 32) | u64::from(low)
}

/// Writes the answer, what it names, and what the call left in the output.
fn write_done<W: Write>(out: &mut W, answer: Answer, output: &[u32]) -> io::Result<()> {
    let told = bucket_rules::Told::from(answer);
    write!(
        out,
        ": answer {} named {}; output{}",
        told.answer,
        told.named,
        Listed(output)
    )
}

impl Lists {
    fn new() -> Self {
        Lists {
            count: [0],
            stamp: [0; 2],
            snapshot: [0; 2],
            input: List::new(),
            output: List::new(),
            scratch: List::new(),
        }
    }

    /// Runs the sorting engine, and writes what comes of it.
    fn sort<W: Write>(&self, out: &mut W) -> io::Result<()> {
        let mut output = [0; OUTPUT];
        let output = self.output.copied_to(&mut output);
        let [count] = self.count;
        let answer = buckets::canonical_buckets_sort(self.input.as_slice(), count, output);
        write_done(out, answer, output)
    }

    /// Runs the bitmap engine, and writes what comes of it.
    fn bitmap<W: Write>(&self, out: &mut W) -> io::Result<()> {
        let (mut output, mut scratch) = ([0; OUTPUT], [0; SCRATCH]);
        let output = self.output.copied_to(&mut output);
        let scratch = self.scratch.copied_to(&mut scratch);
        let [count] = self.count;
        let answer = buckets::canonical_buckets_bitmap(
            self.input.as_slice(),
            count,
            output,
            scratch,
        );
        write_done(out, answer, output)?;
        write!(out, "; scratch{}", Listed(scratch))
    }

    /// Runs the stamp test, and writes what comes of it.
    fn precedes<W: Write>(&self, out: &mut W) -> io::Result<()> {
        if buckets::stamp_precedes_snapshot(joined(self.stamp), joined(self.snapshot)) {
            out.write_all(b": yes")
        } else {
            out.write_all(b": no")
        }
    }
}

impl FixedCases for Lists {
    type Call = Call;

    fn call(name: &[u8]) -> Option<Call> {
        match name {
            b"sort" => Some(Call::Sort),
            b"bitmap" => Some(Call::Bitmap),
            b"precedes" => Some(Call::Precedes),
            _ => None,
        }
    }

    fn set(&mut self, name: &[u8], items: &[u8]) -> Result<(), ListError> {
        match name {
            b"count" => lists::set_array(&mut self.count, items),
            b"stamp" => lists::set_array(&mut self.stamp, items),
            b"snapshot" => lists::set_array(&mut self.snapshot, items),
            b"input" => self.input.set(items),
            b"output" => self.output.set(items),
            b"scratch" => self.scratch.set(items),
            _ => Err(ListError::Malformed),
        }
    }

    fn run<W: Write>(&self, call: Call, out: &mut W) -> io::Result<()> {
        match call {
            Call::Sort => self.sort(out),
            Call::Bitmap => self.bitmap(out),
            Call::Precedes => self.precedes(out),
        }
    }
}

fn main(rt: HostRuntime) {
    cases::run_fixed(&mut rt.stdin(), &mut rt.stdout(), &mut Lists::new());
}
