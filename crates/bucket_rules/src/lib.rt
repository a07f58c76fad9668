// The types that the bucket rules speak of. Code, contracts and definitions share them; the rules themselves are the definitions in
// specs/, which a reader takes in this order: Buckets, Answers, Calls, Stamps, and then Examples, where they are tried.
#![tactic(auto)]

ghost use Rattle.std.specs.Prelude.{◌≡◌};
ghost use Rattle.bucket_rules.specs.Answers.{told_of};

// Why a call refuses, a variant for each number that an operator sees (specs/Answers.antt gives number and named value).
#[derive(Clone, Copy, Debug, PartialEq, Eq)]
pub enum Failure {
    // 30: the input has more than 4,096 numbers, or there are more than 65,536 buckets.
    Limits,
    // 31: the output is shorter than the smaller of input length and bucket count, or the scratch has no bit for some bucket.
    Room,
    // 32, with the element: the first one that is not below the bucket count.
    Range(u32),
}

// The answer of a call: the number of distinct elements, which an operator sees as 0, or why it refuses.
pub type Answer = Result<u32, Failure>;

// An answer as two numbers: the answer's own, and what it names.
#[repr(C)]
#[derive(Clone, Copy)]
pub struct Told {
    pub answer: u32,
    pub named: u32,
}

impl From<Answer> for Told {
    ghost from_gives = { λ a t. t ≡ told_of a };

    fn from(answer: Answer) -> Told {
        let (answer, named) = match answer {
            Ok(distinct) => (0, distinct),
            Err(Failure::Limits) => (30, 0),
            Err(Failure::Room) => (31, 0),
            Err(Failure::Range(element)) => (32, element),
        };
        Told { answer, named }
    }
}
