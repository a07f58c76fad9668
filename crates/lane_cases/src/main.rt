// Runs the lane calls on the cases that its input lists, and writes a line for each: the call and the case's name, the
// answer and its value, and the view after it (height, guarded flag, retired flag, attached lanes, window). What the input
// may say stands in crate `case_text`.
#![tactic(auto)]

use case_text::cases::FixedCases;
use case_text::lists::{List, ListError};
use case_text::{cases, lists};
use lane_rules::View;
use std::io::{self, Write};

/// A lane call.
#[derive(Clone, Copy)]
enum Call {
    Cached,
    Refreshed,
    Detach,
}

/// The lists: the view's numbers as they stand in `View`, the number of rounds that a detach is lent, the pinned contents,
/// and the strip. Contents and strip have room for somewhat more than the rules allow, so that the cases can go beyond
/// them.
#[derive(Drop)]
struct Lists {
    view: [u32; 5],
    rounds: [u32; 1],
    contents: List<u32, 1100>,
    strip: List<u8, 1100>,
}

impl Lists {
    fn new() -> Self {
        Lists {
            view: [0; 5],
            rounds: [0],
            contents: List::new(),
            strip: List::new(),
        }
    }

    /// The view that the lists say.
    fn view(&self) -> View {
        let [height, guarded, retired, attached, window] = self.view;
        View {
            height,
            guarded,
            retired,
            attached,
            window,
        }
    }
}

impl FixedCases for Lists {
    type Call = Call;

    fn call(name: &[u8]) -> Option<Call> {
        match name {
            b"cached" => Some(Call::Cached),
            b"refreshed" => Some(Call::Refreshed),
            b"detach" => Some(Call::Detach),
            _ => None,
        }
    }

    fn set(&mut self, name: &[u8], items: &[u8]) -> Result<(), ListError> {
        match name {
            b"view" => lists::set_array(&mut self.view, items),
            b"rounds" => lists::set_array(&mut self.rounds, items),
            b"contents" => self.contents.set(items),
            b"strip" => self.strip.set(items),
            _ => Err(ListError::Malformed),
        }
    }

    fn run<W: Write>(&self, call: Call, out: &mut W) -> io::Result<()> {
        let (view, contents, strip) = (
            self.view(),
            self.contents.as_slice(),
            self.strip.as_slice(),
        );
        let [rounds] = self.rounds;
        let done = match call {
            Call::Cached => lanes::cached_detach(view, contents, strip),
            Call::Refreshed => lanes::refreshed_detach(view, contents, strip),
            Call::Detach => lanes::detach_before_retire(view, contents, strip, rounds),
        };
        let told = lane_rules::Told::from(done.answer);
        let view = done.view;
        write!(out, ": answer {} value {}", told.answer, told.value)?;
        write!(
            out,
            "; view {} {} {}",
            view.height, view.guarded, view.retired
        )?;
        write!(out, " {} {}", view.attached, view.window)
    }
}

fn main(rt: HostRuntime) {
    cases::run_fixed(&mut rt.stdin(), &mut rt.stdout(), &mut Lists::new());
}
