// The types that the lane rules speak of. Code, contracts and definitions share them; the rules themselves are the definitions in
// specs/, which a reader takes in this order: Steps, Passes, Rounds, Answers, Calls, and then Examples, where they are tried.
#![tactic(auto)]

ghost use Rattle.std.specs.Prelude.{◌≡◌};
ghost use Rattle.lane_rules.specs.declared.Failure.{Failure};
ghost use Rattle.lane_rules.specs.Answers.{told_of};

// One node as its lanes are being detached. The numbers come from outside, so the two flags are numbers too: 0, or 1 where they
// are set. Attached and window are masks of 32 lanes: lane l is bit l.
#[repr(C)]
#[derive(Clone, Copy)]
pub struct View {
    // how many lanes the node has
    pub height: u32,
    // the node is guarded, and pinned for its readers
    pub guarded: u32,
    pub retired: u32,
    // the lanes that still lead to the node
    pub attached: u32,
    // the lanes that the last search found
    pub window: u32,
}

// An error byte was read, which ends the call.
#[derive(Clone, Copy, Debug, PartialEq, Eq)]
pub struct ErrorByte;

// What a compare, a pass or a round says: yes or no, or else that it met an error.
pub type Said = Result<bool, ErrorByte>;

// What an answer says where the call is not accepted, a variant for each number that an operator sees (specs/Answers.antt gives
// number and value).
#[derive(Clone, Copy, Debug, PartialEq, Eq)]
pub enum Failure {
    // 20: the height is 0 or above 32.
    Height,
    // 21: the view is not guarded, or it is retired, or a lane at or above the height is attached.
    View,
    // 22: an attached lane is not in the window.
    Window,
    // 23: the strip is too long or has a byte above 2.
    Strip,
    // 24, with the rounds made: an error byte was read.
    Offset(u32),
    // 25, with the rounds made: the lent rounds are used up, and there was no yes yet.
    Budget(u32),
}

// An error byte that no round has read is 24 with no round made.
impl From<ErrorByte> for Failure {
    ghost from_gives = { λ _ failure. failure ≡ Failure.Offset 0 };

    fn from(_met: ErrorByte) -> Failure {
        Failure::Offset(0)
    }
}

// The answer of a call. It is 0 where the call is accepted, with a value: of a pass 1 where it says yes, 0 where it says no; of a
// detach, which has retired the node, the rounds made.
pub type Answer = Result<u32, Failure>;

// An answer as two numbers: the answer's own, and its value.
#[repr(C)]
#[derive(Clone, Copy)]
pub struct Told {
    pub answer: u32,
    pub value: u32,
}

// The number of an answer and its value.
impl From<Answer> for Told {
    ghost from_gives = { λ answer told. told ≡ told_of answer };

    fn from(answer: Answer) -> Told {
        let (answer, value) = match answer {
            Ok(value) => (0, value),
            Err(Failure::Height) => (20, 0),
            Err(Failure::View) => (21, 0),
            Err(Failure::Window) => (22, 0),
            Err(Failure::Strip) => (23, 0),
            Err(Failure::Offset(rounds)) => (24, rounds),
            Err(Failure::Budget(rounds)) => (25, rounds),
        };
        Told { answer, value }
    }
}

// What a call answers, and the view that it leaves. The view goes by value: the next call on this node takes this one.
#[derive(Clone, Copy)]
pub struct Done {
    pub view: View,
    pub answer: Answer,
}
