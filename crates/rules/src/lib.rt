// The types that the posting rules speak of. Code, contracts and definitions share them; the rules themselves are the
// definitions in specs/, which a reader takes in this order: Limits, Postings, Table, Orders, Storage, Answers, Publication,
// Checks, Calls, and then Letters and Examples, where they are tried.
#![tactic(auto)]

ghost use Rattle.std.specs.Prelude.{◌≡◌, Err};

// A row that stands in the index `binding` under `key`. The table's order is that of the fields: binding, key, row.
#[derive(Clone, Copy, PartialEq, Eq, PartialOrd, Ord)]
pub struct Posting {
    pub binding: u32,
    pub key: u32,
    pub row: u32,
}

// One change of an order: the row leaves its key before, if it has one, and comes to its key after, if it has one.
#[derive(Clone, Copy)]
pub struct Change {
    pub binding: u32,
    pub row: u32,
    pub before: Option<u32>,
    pub after: Option<u32>,
}

impl Change {
    // The posting of the change's row under a key.
    pub fn posting(self, key: u32) -> Posting
        ensures { result ≡ record { binding = self.binding; key = key; row = self.row } }
    {
        Posting {
            binding: self.binding,
            key,
            row: self.row,
        }
    }
}

// A held guard: whoever publishes holds this key of this index.
#[repr(C)]
#[derive(Clone, Copy, PartialEq, Eq)]
pub struct Guard {
    pub binding: u32,
    pub key: u32,
}

// What stands beside the table. The numbers come from outside, so the poison flag is a number too: 0, or 1 where it is set.
#[repr(C)]
#[derive(Clone, Copy)]
pub struct Head {
    pub bindings: u32,
    pub used: u32,
    pub poisoned: u32,
}

// Why a storage insertion failed.
#[derive(Clone, Copy)]
pub enum Fault {
    Store,
    Full,
}

// Why a call was not accepted, a variant for each number that an operator sees (specs/Answers.antt gives number and named values).
#[derive(Clone, Copy)]
pub enum Failure {
    // 1: the table or its head is not well formed.
    Table,
    // 2: the poison flag was set at entry.
    Poisoned,
    // 3: the change list is ill formed or too long, or the guards are.
    List,
    // 4: the strip is too long or has a byte above 2.
    Strip,
    // 5: the record list is shorter than the change list.
    Room,
    // 6, with the first change whose binding is not below the count, or one of whose keys isn't held.
    Guard(u32),
    // 7, with the two changes, the lower first, that have one destination.
    Twice(u32, u32),
    // 8, with the first change whose destination stands in the table already.
    Present(u32),
    // 9, with the first change whose source is a destination of the list.
    Overlap(u32),
    // 10, with the change that storage refused to insert; all is undone.
    Store(u32),
    // 11, with the change that found the table full; all is undone.
    Full(u32),
    // 12, with the change that could not be inserted (rollback: the last change that could not be removed); poisoned.
    Undo(u32),
    // 13, with the change whose source could not be removed; poisoned.
    Source(u32),
    // 14, with the first bad place of the record.
    Record(u32),
}

// What a call answers. Accepted, which is number 0, it names the length of its record, a count, or 0.
pub type Answer = Result<u32, Failure>;

// An answer as three numbers: the answer's own, what it names, and the second change of answer 7 (else 0).
#[repr(C)]
#[derive(Clone, Copy)]
pub struct Told {
    pub answer: u32,
    pub named: u32,
    pub other: u32,
}

// What a call answers, and the head that it leaves. The head goes by value: the next call on this table must be given this one,
// or a poison flag that 12 or 13 set is lost.
#[derive(Clone, Copy)]
pub struct Done {
    pub head: Head,
    pub answer: Answer,
}

impl Done {
    // What a refused call returns: the head as it was.
    pub fn refused(head: Head, why: Failure) -> Done
        ensures { result ≡ record { head = head; answer = Err why } }
    {
        Done {
            head,
            answer: Err(why),
        }
    }
}

impl Told {
    // An answer that names one thing.
    fn naming(answer: u32, named: u32) -> Told
        ensures { result ≡ record { answer = answer; named = named; other = 0 } }
    {
        Told {
            answer,
            named,
            other: 0,
        }
    }
}

impl From<Answer> for Told {
    ghost use Rattle.rules.specs.Answers.{told_of};

    ghost from_gives = { λ answer told. told ≡ told_of answer };

    fn from(answer: Answer) -> Told {
        match answer {
            Ok(named) => Told::naming(0, named),
            Err(Failure::Table) => Told::naming(1, 0),
            Err(Failure::Poisoned) => Told::naming(2, 0),
            Err(Failure::List) => Told::naming(3, 0),
            Err(Failure::Strip) => Told::naming(4, 0),
            Err(Failure::Room) => Told::naming(5, 0),
            Err(Failure::Guard(change)) => Told::naming(6, change),
            Err(Failure::Twice(earlier, later)) => Told {
                answer: 7,
                named: earlier,
                other: later,
            },
            Err(Failure::Present(change)) => Told::naming(8, change),
            Err(Failure::Overlap(change)) => Told::naming(9, change),
            Err(Failure::Store(change)) => Told::naming(10, change),
            Err(Failure::Full(change)) => Told::naming(11, change),
            Err(Failure::Undo(change)) => Told::naming(12, change),
            Err(Failure::Source(change)) => Told::naming(13, change),
            Err(Failure::Record(place)) => Told::naming(14, place),
        }
    }
}
