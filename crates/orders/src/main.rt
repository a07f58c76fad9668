// Runs the fourteen lettered orders, each from the same start, and writes a line for each: its letter, its answer,
// how many postings stand in the table after it, and the poison flag.
#![tactic(auto)]

use rules::Head;

/// The guards that every order holds.
const GUARDS: [u32; 6] = [0, 5, 0, 6, 1, 9];

/// The table that every order finds: it has two postings, and room for two more.
const TABLE: [u32; 12] = [0, 5, 1, 0, 5, 2, 0, 0, 0, 0, 0, 0];

/// An order, and what it is published on.
#[derive(Clone, Copy)]
struct Order<'a> {
    letter: char,
    poisoned: u32,
    has_room: bool,
    changes: &'a [u32],
    strip: &'a [u8],
}

impl<'a> Order<'a> {
    /// An order on a clean head, and on the whole table.
    fn new(letter: char, changes: &'a [u32]) -> Self {
        Order {
            letter,
            poisoned: 0,
            has_room: true,
            changes,
            strip: &[],
        }
    }

    /// The order with a strip.
    fn strip(self, strip: &'a [u8]) -> Self {
        Order { strip, ..self }
    }

    /// The order on a poisoned head.
    fn poisoned(self) -> Self {
        Order {
            poisoned: 1,
            ..self
        }
    }

    /// The order on the table cut to its two postings.
    fn cut(self) -> Self {
        Order {
            has_room: false,
            ..self
        }
    }
}

/// Publishes an order on a copy of the table, and writes its line. A line that cannot be written is let go, and the next is
/// tried: whoever runs the orders compares what they wrote.
fn run<R: Print>(rt: &R, order: Order<'_>) {
    let head = Head {
        bindings: 2,
        used: 2,
        poisoned: order.poisoned,
    };
    let mut table = TABLE;
    let lent = if order.has_room { 12 } else { 6 };
    let mut record = [0; 3];
    let done = publish::publish(
        head,
        &mut table[..lent],
        order.changes,
        &GUARDS,
        order.strip,
        &mut record,
    );
    let told = rules::Told::from(done.answer);
    let _ = println!(rt;
        "{} {} {} {}",
        order.letter, told.answer, done.head.used, done.head.poisoned
    );
}

fn main(rt: HostRuntime) {
    let moved = [0, 1, 1, 5, 1, 6];
    let three = [1, 7, 0, 0, 1, 9, 1, 8, 0, 0, 1, 9, 1, 9, 0, 0, 1, 9];
    let both = [0, 1, 1, 5, 1, 6, 0, 2, 1, 5, 1, 6];
    let orders = [
        Order::new('A', &moved),
        Order::new('B', &[0, 1, 1, 5, 0, 0]),
        Order::new('C', &three),
        Order::new('D', &three).strip(&[0, 0, 0, 1, 0]),
        Order::new('E', &three).strip(&[0, 0, 0, 2, 0]),
        Order::new('F', &both).strip(&[0, 0, 1]),
        Order::new('G', &both).strip(&[0, 0, 0, 2]),
        Order::new('H', &moved).strip(&[1]),
        Order::new('I', &[0, 1, 0, 0, 1, 6, 0, 1, 0, 0, 1, 6]),
        Order::new('J', &[0, 2, 0, 0, 1, 5]),
        Order::new('K', &[0, 3, 0, 0, 1, 6, 0, 3, 1, 6, 0, 0]),
        Order::new('L', &moved).poisoned(),
        Order::new('M', &moved).cut(),
        Order::new('N', &[]),
    ];
    for order in orders {
        run(&rt, order);
    }
}
