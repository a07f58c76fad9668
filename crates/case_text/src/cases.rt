// Goes through the lines of a text, sets the lists and runs the cases that they say.
ghost use Rattle.std.specs.Prelude.{◌≤◌, length};

use crate::items;
use crate::lists::ListError;
use std::alloc::Global;
use std::io::{self, BufWriter, Read, Write};

/// How many bytes of its input a program reads.
const LIMIT: usize = 65536;

/// A program that runs cases: its lists, its calls, and what it writes of a case.
pub trait Cases {
    type Call: Copy;

    /// The call of a name.
    fn call(name: &[u8]) -> Option<Self::Call>;

    /// Sets the list of a name to the numbers that the items of a line say.
    fn set(&mut self, alloc: Global, name: &[u8], items: &[u8]) -> Result<(), ListError>;

    /// Runs a call on copies of the lists, so that the next one finds them as they were set, and writes what comes of it.
    fn run<W: Write>(&self, call: Self::Call, out: &mut W) -> io::Result<()>;
}

/// A program that runs cases, as `Cases`, whose lists lie in fixed memory: to set one it is handed no allocator.
pub trait FixedCases {
    type Call: Copy;

    /// The call of a name.
    fn call(name: &[u8]) -> Option<Self::Call>;

    /// Sets the list of a name to the numbers that the items of a line say.
    fn set(&mut self, name: &[u8], items: &[u8]) -> Result<(), ListError>;

    /// Runs a call on copies of the lists, so that the next one finds them as they were set, and writes what comes of it.
    fn run<W: Write>(&self, call: Self::Call, out: &mut W) -> io::Result<()>;
}

/// Cases with the memory that their lists ask for.
#[derive(Drop)]
struct Supplied<'a, C> {
    alloc: Global,
    cases: &'a mut C,
}

impl<C: Cases> FixedCases for Supplied<'_, C> {
    type Call = C::Call;

    fn call(name: &[u8]) -> Option<C::Call> {
        C::call(name)
    }

    fn set(&mut self, name: &[u8], items: &[u8]) -> Result<(), ListError> {
        self.cases.set(self.alloc, name, items)
    }

    fn run<W: Write>(&self, call: C::Call, out: &mut W) -> io::Result<()> {
        self.cases.run(call, out)
    }
}

/// A writer that lets go what another does not take, and goes on with what follows: whoever runs these programs compares
/// what they wrote. It never fails.
#[derive(Drop)]
struct Lenient<'a, W> {
    out: &'a mut W,
}

impl<W: Write> Write for Lenient<'_, W> {
    fn write(&mut self, bytes: &[u8]) -> io::Result<usize> {
        let _ = self.out.write_all(bytes);
        Ok(bytes.len())
    }

    fn flush(&mut self) -> io::Result<()> {
        Ok(())
    }
}

/// Runs the case of a line, and writes the line and what comes of it.
fn run_case<C: FixedCases, W: Write>(
    cases: &C,
    call: C::Call,
    line: &[u8],
    out: &mut W,
) -> io::Result<()> {
    out.write_all(line)?;
    cases.run(call, out)?;
    out.write_all(b"\n")
}

/// Says of a line that it is malformed.
fn write_malformed<W: Write>(line: &[u8], out: &mut W) -> io::Result<()> {
    out.write_all(b"malformed: ")?;
    out.write_all(line)?;
    out.write_all(b"\n")
}

/// Does what one line says: nothing if it is empty or a comment.
fn run_line<C: FixedCases, W: Write>(cases: &mut C, line: &[u8], out: &mut W) -> io::Result<()> {
    if line.is_empty() || line.starts_with(b"#") {
        return Ok(());
    }
    let (name, items) = items::cut(line, |b| *b == b' ');
    if let Some(call) = C::call(name) {
        return run_case(cases, call, line, out);
    }
    match cases.set(name, items) {
        Ok(()) => Ok(()),
        Err(ListError::Memory(error)) => Err(error.into()),
        Err(ListError::Malformed) => write_malformed(line, out),
    }
}

/// Reads a text as far as there is room, and answers how long it is. A read that fails ends it, as the input's end does.
fn read_text<R: Read>(input: &mut R, text: &mut [u8]) -> usize
    ensures { result ≤ length text.new }
{
    let mut size = 0;
    while size < text.len() {
        match input.read(&mut text[size..]) {
            Ok(0) | Err(_) => break,
            Ok(count) => size += count,
        }
    }
    size
}

/// Does what each line of the input says, and writes what comes of the cases. The first read, write or allocation that
/// fails ends it and is the answer.
pub fn run<R: Input + Print + AllocGlobal, C: Cases>(rt: &R, cases: &mut C) -> io::Result<()> {
    let alloc = rt.alloc();
    let mut text = Vec::new(alloc);
    rt.reader().take(LIMIT as u64).read_to_end(&mut text)?;
    let mut out = BufWriter::new(alloc, io::writer(rt))?;
    let mut cases = Supplied { alloc, cases };
    for line in text.split(|b| *b == b'\n') {
        run_line(&mut cases, line, &mut out)?;
    }
    out.flush()
}

/// The same in fixed memory, to the end: a read that fails is taken as the input's end, and what is not taken is let go,
/// and so is a line whose list finds no memory.
pub fn run_fixed<R: Read, W: Write, C: FixedCases>(input: &mut R, out: &mut W, cases: &mut C) {
    let mut text = [0; LIMIT];
    let size = read_text(input, &mut text);
    let mut out = Lenient { out };
    for line in text[..size].split(|b| *b == b'\n') {
        let _ = run_line(cases, line, &mut out);
    }
}

#[cfg(test)]
mod tests {
    use super::*;
    use std::alloc::{AllocError, Allocator};
    use std::cell::RefCell;
    use std::fmt::Display;
    use std::io::{BufRead, ErrorKind, Lines};
    use std::test::Fail;

    /// A program with no list and one call, which writes a word.
    #[derive(Drop)]
    struct Saying;

    impl FixedCases for Saying {
        type Call = u8;

        fn call(name: &[u8]) -> Option<u8> {
            name.first().copied().filter(|b| *b == b's')
        }

        fn set(&mut self, _name: &[u8], _items: &[u8]) -> Result<(), ListError> {
            Err(ListError::Malformed)
        }

        fn run<W: Write>(&self, _call: u8, out: &mut W) -> io::Result<()> {
            out.write_all(b": said")
        }
    }

    /// An input that fails behind its bytes.
    #[derive(Drop)]
    struct Broken(&'static [u8]);

    impl Read for Broken {
        fn read(&mut self, buf: &mut [u8]) -> io::Result<usize> {
            if self.0.is_empty() {
                return Err(io::Error::from(ErrorKind::Other));
            }
            self.0.read(buf)
        }
    }

    /// A program with one list, which lies on a heap, and one call, which writes how long it is. A line `none` finds no
    /// memory.
    #[derive(Drop)]
    struct Growing {
        bytes: Vec<u8>,
    }

    impl Cases for Growing {
        type Call = u8;

        fn call(name: &[u8]) -> Option<u8> {
            Saying::call(name)
        }

        fn set(&mut self, alloc: Global, name: &[u8], items: &[u8]) -> Result<(), ListError> {
            self.bytes = Vec::new(alloc);
            match name {
                b"list" => self.bytes.extend_from_slice(items)?,
                b"one" => self.bytes.push(1)?,
                b"none" => return Err(ListError::from(AllocError)),
                _ => return Err(ListError::Malformed),
            }
            Ok(())
        }

        fn run<W: Write>(&self, _call: u8, out: &mut W) -> io::Result<()> {
            write!(out, ": {}", self.bytes.len())
        }
    }

    /// A runtime with an input of its own, which keeps what is written, and cannot while what it keeps is borrowed.
    #[derive(Drop)]
    struct Kept {
        alloc: Global,
        input: &'static [u8],
        out: RefCell<Vec<u8>>,
    }

    impl Kept {
        fn new(alloc: Global, input: &'static [u8]) -> Kept {
            Kept {
                alloc,
                input,
                out: RefCell::new(Vec::new(alloc)),
            }
        }
    }

    impl Alloc for Kept {
        type A = Global;

        fn alloc(&self) -> Global {
            self.alloc
        }
    }

    impl Input for Kept {
        type Reader = &'static [u8];

        fn read_line<A: Allocator + Clone>(&self, _buf: &mut String<A>) -> io::Result<usize> {
            Ok(0)
        }

        fn lines<A: Allocator>(&self, alloc: A) -> Lines<&'static [u8], A> {
            self.input.lines(alloc)
        }

        fn reader(&self) -> &'static [u8] {
            self.input
        }
    }

    impl Print for Kept {
        fn print<D: Display + Drop>(&self, _value: D) -> io::Result<()> {
            Err(io::Error::from(ErrorKind::Unsupported))
        }

        fn println<D: Display + Drop>(&self, _value: D) -> io::Result<()> {
            Err(io::Error::from(ErrorKind::Unsupported))
        }

        fn write_all(&self, bytes: &[u8]) -> io::Result<()> {
            let mut out = self
                .out
                .try_borrow_mut()
                .map_err(|_| io::Error::from(ErrorKind::Other))?;
            out.extend_from_slice(bytes)?;
            Ok(())
        }
    }

    /// An output that takes no piece with a colon at its head.
    #[derive(Drop)]
    struct Refusing {
        taken: Vec<u8>,
    }

    impl Write for Refusing {
        fn write(&mut self, bytes: &[u8]) -> io::Result<usize> {
            if bytes.starts_with(b":") {
                return Err(io::Error::from(ErrorKind::Other));
            }
            self.taken.extend_from_slice(bytes)?;
            Ok(bytes.len())
        }

        fn flush(&mut self) -> io::Result<()> {
            Ok(())
        }
    }

    #[test]
    fn goes_on_where_reading_or_writing_fails(rt: HostRuntime) -> Result<(), Fail> {
        let mut out = Refusing {
            taken: Vec::new(rt.alloc()),
        };
        run_fixed(&mut Broken(b"s 1\nx\ns 2"), &mut out, &mut Saying);
        assert_eq!(rt;
            out.taken.as_slice(),
            b"s 1\nmalformed: x\ns 2\n".as_slice()
        );
        Ok(())
    }

    #[test]
    fn runs_lists_on_a_heap(rt: HostRuntime) -> Result<(), Fail> {
        let kept = Kept::new(
            rt.alloc(),
            b"list  abc\ns 1\nx\n# a comment\n\none\ns 2".as_slice(),
        );
        let mut cases = Growing {
            bytes: Vec::new(rt.alloc()),
        };
        assert!(rt; run(&kept, &mut cases).is_ok());
        assert_eq!(rt;
            kept.out.into_inner().as_slice(),
            b"s 1: 5\nmalformed: x\ns 2: 1\n".as_slice()
        );
        Ok(())
    }

    #[test]
    fn ends_where_memory_does(rt: HostRuntime) -> Result<(), Fail> {
        let kept = Kept::new(rt.alloc(), b"s 1\nnone\nlist abc".as_slice());
        let mut cases = Growing {
            bytes: Vec::new(rt.alloc()),
        };
        assert!(rt;
            matches!(run(&kept, &mut cases), Err(error) if error.kind() == ErrorKind::OutOfMemory)
        );
        assert!(rt; cases.bytes.is_empty());
        Ok(())
    }

    #[test]
    fn tells_that_nothing_can_be_written(rt: HostRuntime) -> Result<(), Fail> {
        let kept = Kept::new(rt.alloc(), b"s 1".as_slice());
        let mut cases = Growing {
            bytes: Vec::new(rt.alloc()),
        };
        let borrowed = kept.out.try_borrow();
        assert!(rt; run(&kept, &mut cases).is_err());
        assert!(rt; borrowed.is_ok());
        Ok(())
    }
}
