// Cases read one by one and played by a player of its own, where reads are interrupted, where the input ends, where nothing is printed.

use crate::case::Case;
use crate::fault::Fault;
use crate::header::Header;
use crate::input::read_array;
use crate::operator::Operator;
use crate::playing::{Player, play_all};
use crate::text::Listed;
use std::alloc::{Alloc, AllocError, Allocator, Global};
use std::cell::Cell;
use std::fmt::Display;
use std::io;
use std::io::{BufRead, ErrorKind, Lines, Read, Write};
use std::test::Fail;

// A header of two offsets, one corner, one coordinate, an arity and a face, and what it tells of.
static CASE: [u8; 80] = [
    5, 0, 0, 0, 4, 0, 0, 0, 0, 0, 0, 0, 0, 0, 0, 0, 2, 0, 0, 0, 1, 0, 0, 0, 1, 0, 0, 0, 1, 0, 0, 0,
    1, 0, 0, 0, 0, 0, 0, 0, 0, 0, 0, 0, 0, 0, 0, 0, 0, 0, 0, 0, 0, 0, 0, 0, 0, 0, 0, 0, 1, 0, 0, 0,
    0, 1, 0, 0, 0, 0, 128, 63, 4, 0, 0, 0, 7, 0, 0, 0,
];

// A reader that is interrupted before each of its bytes.
#[derive(Drop)]
struct Interrupted<'a> {
    bytes: &'a [u8],
    again: bool,
}

impl Read for Interrupted<'_> {
    fn read(&mut self, buf: &mut [u8]) -> io::Result<usize> {
        self.again = !self.again;
        if self.again {
            return Err(io::Error::from(ErrorKind::Interrupted));
        }
        let some = buf.len().min(1);
        self.bytes.read(&mut buf[..some])
    }
}

impl Interrupted<'_> {
    fn new(bytes: &[u8]) -> Interrupted<'_> {
        Interrupted {
            bytes,
            again: false,
        }
    }
}

#[test]
fn reads_words(rt: HostRuntime) -> Result<(), Fail> {
    let words: [u32; 2] = read_array(&mut Interrupted::new(&[1, 0, 0, 0, 0, 1, 0, 0, 9]))?;
    assert_eq!(rt; words[0], 1);
    assert_eq!(rt; words[1], 256);
    let none: io::Result<[u32; 0]> = read_array(&mut Interrupted::new(&[]));
    assert!(rt; none.is_ok());
    let short: io::Result<[u32; 1]> = read_array(&mut Interrupted::new(&[1, 0, 0]));
    assert!(rt; short.is_err_and(|e| e.kind() == ErrorKind::UnexpectedEof));
    Ok(())
}

#[test]
fn reads_a_case(rt: HostRuntime) -> Result<(), Fail> {
    let mut input = Interrupted::new(&CASE);
    let header = Header::read(&mut input)?;
    let case = Case::read_lists(&mut input, rt.alloc(), header)?;
    assert_eq!(rt; case.header.code, 5);
    assert!(rt; case.header.flags.arities);
    assert_eq!(rt; case.mesh.offsets.as_slice(), [0, 1].as_slice());
    assert_eq!(rt; case.mesh.corners.as_slice(), [256].as_slice());
    assert_eq!(rt; case.mesh.coords.as_slice(), [1.0].as_slice());
    assert_eq!(rt; case.bits.as_slice(), [0x3f80_0000].as_slice());
    assert_eq!(rt; case.arities.as_slice(), [4].as_slice());
    assert_eq!(rt; case.faces.as_slice(), [7].as_slice());
    assert!(rt; matches!(Header::read(&mut input), Err(Fault::BadCase)));
    assert!(rt; Header::checked([1; 14]).is_ok());
    assert!(rt; matches!(Header::checked([65_537; 14]), Err(Fault::BadCase)));
    Ok(())
}

#[test]
fn tells_faults(rt: HostRuntime) {
    assert!(rt; matches!(Operator::try_from(1), Ok(Operator::Ambo)));
    assert!(rt; matches!(Operator::try_from(12), Err(Fault::BadCase)));
    match Fault::from(AllocError) {
        Fault::System(e) => assert!(rt; e.kind() == ErrorKind::OutOfMemory),
        _ => assert!(rt; false),
    }
}

#[test]
fn lists_what_prints(rt: HostRuntime) -> Result<(), Fail> {
    let words = format!(in rt.alloc(); "{}", Listed(&["three", "corners"]))?;
    assert_eq!(rt; words.as_str(), " three corners");
    let floats = format!(in rt.alloc(); "{}", Listed(&[0.5f32, -2.0]))?;
    assert_eq!(rt; floats.as_str(), " 0.5 -2");
    let none: [u32; 0] = [];
    let nothing = format!(in rt.alloc(); "{}", Listed(&none))?;
    assert_eq!(rt; nothing.as_str(), "");
    Ok(())
}

// Tells that the input ends, though it doesn't.
struct Ending;

impl Player for Ending {
    fn play<R: Read, W: Write>(
        &self,
        _input: &mut R,
        _alloc: Global,
        _out: &mut W,
    ) -> Result<(), Fault> {
        Err(Fault::Ended)
    }
}

// Prints the arities of its cases.
struct Arities;

impl Player for Arities {
    fn play<R: Read, W: Write>(
        &self,
        input: &mut R,
        alloc: Global,
        out: &mut W,
    ) -> Result<(), Fault> {
        let header = Header::read(input)?;
        let case = Case::read_lists(input, alloc, header)?;
        write!(out, "a{}", Listed(&case.arities))?;
        Ok(())
    }
}

// An input in memory, whose reads fail after so many bytes.
#[derive(Drop)]
struct Source<'a> {
    bytes: &'a [u8],
    sound: usize,
}

impl Read for Source<'_> {
    fn read(&mut self, buf: &mut [u8]) -> io::Result<usize> {
        if self.sound == 0 {
            return Err(io::Error::from(ErrorKind::ConnectionReset));
        }
        let some = buf.len().min(self.sound);
        let read = self.bytes.read(&mut buf[..some])?;
        self.sound = self.sound.saturating_sub(read);
        Ok(read)
    }
}

impl BufRead for Source<'_> {
    fn fill_buf(&mut self) -> io::Result<&[u8]> {
        if self.sound == 0 {
            return Err(io::Error::from(ErrorKind::ConnectionReset));
        }
        Ok(self.bytes)
    }

    fn consume(&mut self, amount: usize) {
        self.bytes.consume(amount)
    }
}

// A system with this input, which counts what it prints and the bytes of it, so many at most in one go.
#[derive(Drop)]
struct Memory<'a> {
    alloc: Global,
    bytes: &'a [u8],
    sound: usize,
    lines: Cell<usize>,
    printed: Cell<usize>,
    most: usize,
}

impl Alloc for Memory<'_> {
    type A = Global;

    fn alloc(&self) -> Global {
        self.alloc
    }
}

impl<'a> Input for Memory<'a> {
    type Reader = Source<'a>;

    fn read_line<A: Allocator + Clone>(&self, buf: &mut String<A>) -> io::Result<usize> {
        self.reader().read_line(buf)
    }

    fn lines<A: Allocator>(&self, alloc: A) -> Lines<Source<'a>, A> {
        self.reader().lines(alloc)
    }

    fn reader(&self) -> Source<'a> {
        Source {
            bytes: self.bytes,
            sound: self.sound,
        }
    }
}

impl Print for Memory<'_> {
    fn print<D: Display + Drop>(&self, _value: D) -> io::Result<()> {
        Err(io::Error::from(ErrorKind::Unsupported))
    }

    fn println<D: Display + Drop>(&self, _value: D) -> io::Result<()> {
        Err(io::Error::from(ErrorKind::Unsupported))
    }

    fn write_all(&self, bytes: &[u8]) -> io::Result<()> {
        if bytes.len() > self.most {
            return Err(io::Error::from(ErrorKind::BrokenPipe));
        }
        self.lines.set(self.lines.get().wrapping_add(1));
        self.printed
            .set(self.printed.get().wrapping_add(bytes.len()));
        Ok(())
    }
}

impl Memory<'_> {
    fn new(alloc: Global, bytes: &[u8], most: usize) -> Memory<'_> {
        Memory {
            alloc,
            bytes,
            sound: usize::MAX,
            lines: Cell::new(0),
            printed: Cell::new(0),
            most,
        }
    }
}

#[test]
fn plays_alone(rt: HostRuntime) -> Result<(), Fail> {
    let twice = [CASE, CASE];
    let two = Memory::new(rt.alloc(), twice.as_flattened(), usize::MAX);
    play_all(&Arities, &two)?;
    assert_eq!(rt; two.printed.get(), "a 4\na 4\n".len());
    assert_eq!(rt; two.lines.get(), 2);
    let cut = Memory::new(rt.alloc(), &CASE[..79], usize::MAX);
    play_all(&Arities, &cut)?;
    assert_eq!(rt; cut.printed.get(), "bad case\n".len());
    let ending = Memory::new(rt.alloc(), &CASE, usize::MAX);
    play_all(&Ending, &ending)?;
    assert_eq!(rt; ending.printed.get(), "bad case\n".len());
    let none = Memory::new(rt.alloc(), &[], usize::MAX);
    play_all(&Arities, &none)?;
    assert_eq!(rt; none.printed.get(), 0);
    for sound in [0, 40, 70] {
        let mut broken = Memory::new(rt.alloc(), &CASE, usize::MAX);
        broken.sound = sound;
        let told = play_all(&Arities, &broken);
        assert!(rt; told.is_err_and(|e| e.kind() == ErrorKind::ConnectionReset));
        assert_eq!(rt; broken.printed.get(), 0);
    }
    let full = Memory::new(rt.alloc(), &CASE, 0);
    assert!(rt; play_all(&Arities, &full).is_err_and(|e| e.kind() == ErrorKind::BrokenPipe));
    Ok(())
}
