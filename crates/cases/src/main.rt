// Runs the posting calls on the cases that its input lists, and writes a line for each: the call and the case's name, the
// answer and what it names, and but for a count the head (bindings, used, poison flag) and the table after it; for prepare
// and publish the record list too. What the input may say, and how lists are written, stands in crate `case_text`.
#![tactic(auto)]

use case_text::cases::FixedCases;
use case_text::lists::{List, ListError};
use case_text::writing::Listed;
use case_text::{cases, lists};
use rules::{Done, Head};
use std::io::{self, Write};

/// The room of the table, and of the record list.
const TABLE: usize = 12300;

const RECORD: usize = 300;

/// A posting call.
#[derive(Clone, Copy, PartialEq, Eq)]
enum Call {
    Prepare,
    Publish,
    Rollback,
    Removal,
    Count,
}

/// The lists: the head's numbers as they stand in `Head`, what a count asks for (binding, key), and the five lists that are
/// lent to the calls. Each has room for somewhat more than the rules allow, so that the cases can go beyond them.
#[derive(Drop)]
struct Lists {
    head: [u32; 3],
    ask: [u32; 2],
    changes: List<u32, 1600>,
    guards: List<u32, 2100>,
    strip: List<u8, 1100>,
    record: List<u32, RECORD>,
    table: List<u32, TABLE>,
}

impl Lists {
    fn new() -> Self {
        Lists {
            head: [0; 3],
            ask: [0; 2],
            changes: List::new(),
            guards: List::new(),
            strip: List::new(),
            record: List::new(),
            table: List::new(),
        }
    }

    /// The head that the lists say.
    fn head(&self) -> Head {
        let [bindings, used, poisoned] = self.head;
        Head {
            bindings,
            used,
            poisoned,
        }
    }

    /// A count of what the lists ask for, as a call that leaves the head as it was.
    fn counted(&self, table: &[u32]) -> Done {
        let head = self.head();
        let [binding, key] = self.ask;
        let answer = publish::count(head, table, binding, key);
        Done { head, answer }
    }

    /// Runs a call on a table and a record list, with all else from the lists.
    fn run_on(&self, call: Call, table: &mut [u32], record: &mut [u32]) -> Done {
        let head = self.head();
        let (changes, guards, strip) = (
            self.changes.as_slice(),
            self.guards.as_slice(),
            self.strip.as_slice(),
        );
        match call {
            Call::Prepare => publish::prepare_index_destinations(
                head, table, changes, guards, strip, record,
            ),
            Call::Publish => publish::publish(head, table, changes, guards, strip, record),
            Call::Rollback => publish::rollback_index_destinations(
                head, table, changes, guards, strip, record,
            ),
            Call::Removal => publish::remove_index_sources(head, table, changes, guards, strip),
            Call::Count => self.counted(table),
        }
    }
}

/// Writes the answer, and what it names: answer 7 names two changes.
fn write_answer<W: Write>(out: &mut W, done: Done) -> io::Result<()> {
    let told = rules::Told::from(done.answer);
    write!(out, ": answer {} names {}", told.answer, told.named)?;
    if let Err(rules::Failure::Twice(_, later)) = done.answer {
        write!(out, " {}", later)?;
    }
    Ok(())
}

/// Writes what a call left in the head, the table and the record list. A count leaves all as it was, and two calls the
/// record.
fn write_state<W: Write>(
    out: &mut W,
    call: Call,
    head: Head,
    table: &[u32],
    record: &[u32],
) -> io::Result<()> {
    if call == Call::Count {
        return Ok(());
    }
    write!(
        out,
        "; head {} {} {}",
        head.bindings, head.used, head.poisoned
    )?;
    write!(out, "; table{}", Listed(table))?;
    if matches!(call, Call::Prepare | Call::Publish) {
        write!(out, "; record{}", Listed(record))?;
    }
    Ok(())
}

impl FixedCases for Lists {
    type Call = Call;

    fn call(name: &[u8]) -> Option<Call> {
        match name {
            b"prepare" => Some(Call::Prepare),
            b"publish" => Some(Call::Publish),
            b"rollback" => Some(Call::Rollback),
            b"removal" => Some(Call::Removal),
            b"count" => Some(Call::Count),
            _ => None,
        }
    }

    fn set(&mut self, name: &[u8], items: &[u8]) -> Result<(), ListError> {
        match name {
            b"head" => lists::set_array(&mut self.head, items),
            b"ask" => lists::set_array(&mut self.ask, items),
            b"changes" => self.changes.set(items),
            b"guards" => self.guards.set(items),
            b"strip" => self.strip.set(items),
            b"record" => self.record.set(items),
            b"table" => self.table.set(items),
            _ => Err(ListError::Malformed),
        }
    }

    fn run<W: Write>(&self, call: Call, out: &mut W) -> io::Result<()> {
        let (mut table, mut record) = ([0; TABLE], [0; RECORD]);
        let table = self.table.copied_to(&mut table);
        let record = self.record.copied_to(&mut record);
        let done = self.run_on(call, table, record);
        write_answer(out, done)?;
        write_state(out, call, done.head, table, record)
    }
}

fn main(rt: HostRuntime) {
    cases::run_fixed(&mut rt.stdin(), &mut rt.stdout(), &mut Lists::new());
}
