//! The adapters to the system, over a system that is made up.
ghost use Rattle.std.specs.Prelude.{◌≤◌, IfOk, None, false, length};
ghost use Rattle.std.specs.Io.{ReadsAtMost, WritesAtMost};

use metis_outside::{Arguments, Disk, DiskShelf, Shelf, Sink, StdSink, Trouble, words_given};
use std::alloc::{AllocError, Global};
use std::cell::Cell;
use std::env::FillError;
use std::fmt::Display;
use std::io::{self, Error, ErrorKind, Read};
use std::process::Abort;
use std::test::Fail;

/// A file that gives one byte, is interrupted, gives another, and then fails.
#[derive(Drop)]
struct Shaky {
    reads: u32,
}

impl Read for Shaky {
    ghost remaining = { λ _. None };

    fn read(&mut self, buf: &mut [u8]) -> io::Result<usize>
        ensures bound { ReadsAtMost result buf.new }
    {
        self.reads = self.reads.saturating_add(1);
        if buf.is_empty() {
            return Ok(0);
        }
        match self.reads {
            1 | 3 => {
                buf[0] = b'a';
                Ok(1)
            }
            2 => Err(Error::from(ErrorKind::Interrupted)),
            _ => Err(Error::from(ErrorKind::Other)),
        }
    }
}

/// A disk with three files of the same bytes, two of them in folders, and an input that goes on as they do. Any other name is
/// refused.
#[derive(Drop)]
struct Shelfful {
    inputs: Cell<u32>,
}

impl Disk for Shelfful {
    type File = Shaky;

    type Reader = Shaky;

    ghost files = { λ _. None };

    ghost opens = { λ _ _. false };

    fn open(&self, name: &str) -> io::Result<Shaky> {
        if name == "shaky" || name == "plans/shaky" || name == "/srv/plans/shaky" {
            Ok(Shaky { reads: 0 })
        } else {
            Err(Error::from(ErrorKind::PermissionDenied))
        }
    }

    fn input(&self) -> Shaky {
        self.inputs.set(self.inputs.get().saturating_add(1));
        Shaky { reads: 2 }
    }
}

// Takes at most four bytes.
fn expect_taken(rt: &impl Abort, shelf: &mut impl Shelf, wanted: Result<usize, Trouble>) {
    let mut buf = [0; 4];
    let taken = shelf.take(&mut buf);
    assert!(rt; taken == wanted);
}

// A file is read until it fails; then the input is opened, of which nothing is left after a failed opening.
fn expect_reads<D: Disk>(rt: &impl Abort, disk: &D) {
    let mut shelf = DiskShelf::new(disk);
    expect_taken(rt, &mut shelf, Ok(0));
    expect_opened(rt, &mut shelf, "shaky", Ok(()));
    for wanted in [Ok(1), Ok(1), Err(Trouble::Failed), Err(Trouble::Failed)] {
        expect_taken(rt, &mut shelf, wanted);
    }
    for name in ["plans/shaky", "/srv/plans/shaky", "-"] {
        expect_opened(rt, &mut shelf, name, Ok(()));
        expect_taken(rt, &mut shelf, Ok(1));
    }
    expect_opened(rt, &mut shelf, "srv/plans/shaky", Err(Trouble::Failed));
    expect_opened(rt, &mut shelf, "-x", Err(Trouble::Failed));
    expect_taken(rt, &mut shelf, Ok(0));
}

fn expect_opened(rt: &impl Abort, shelf: &mut impl Shelf, name: &str, wanted: Result<(), Trouble>) {
    let opened = shelf.open_file(name);
    assert!(rt; opened == wanted, "{name}");
}

#[test]
fn files_that_are_interrupted_and_fail(rt: HostRuntime) {
    let disk = Shelfful {
        inputs: Cell::new(0),
    };
    expect_reads(&rt, &disk);
    assert_eq!(rt; disk.inputs.get(), 1);
}

/// An output that takes at most so many bytes a call, and fails from its call of this number on.
#[derive(Drop)]
struct Slow {
    most: usize,
    fails: u32,
    calls: Cell<u32>,
}

impl Print for Slow {
    fn print<D: Display + Drop>(&self, _value: D) -> io::Result<()> {
        Err(Error::from(ErrorKind::Unsupported))
    }

    fn println<D: Display + Drop>(&self, _value: D) -> io::Result<()> {
        Err(Error::from(ErrorKind::Unsupported))
    }

    fn write_all(&self, _bytes: &[u8]) -> io::Result<()> {
        Err(Error::from(ErrorKind::Unsupported))
    }

    fn write_some(&self, bytes: &[u8]) -> io::Result<usize>
        ensures bound { IfOk result (λ n. n ≤ length bytes.now) }
    {
        self.calls.set(self.calls.get().saturating_add(1));
        if self.calls.get() >= self.fails {
            return Err(Error::from(ErrorKind::BrokenPipe));
        }
        Ok(bytes.len().min(self.most))
    }
}

// Puts the piece, and tells how many calls that took.
fn expect_put(
    rt: &impl Abort,
    piece: &[u8],
    most: usize,
    fails: u32,
    wanted: Result<(), Trouble>,
    calls: u32,
) {
    let out = Slow {
        most,
        fails,
        calls: Cell::new(0),
    };
    let put = StdSink::new(&out).put(piece);
    assert!(rt; put == wanted, "{most} a call");
    let made = out.calls.get();
    assert!(rt; made == calls, "{most} a call");
}

#[test]
fn output_that_takes_little_and_fails(rt: HostRuntime) -> Result<(), AllocError> {
    let line = b"a line\n";
    expect_put(&rt, line, 100, 9, Ok(()), 1);
    expect_put(&rt, line, 1, 9, Ok(()), 7);
    expect_put(&rt, line, 5, 9, Ok(()), 2);
    expect_put(&rt, line, 0, 9, Err(Trouble::Failed), 1);
    expect_put(&rt, line, 1, 3, Err(Trouble::Failed), 3);
    expect_put(&rt, line, 100, 1, Err(Trouble::Failed), 1);
    let large = vec![in rt.alloc(); b'x'; 1_000_000]?;
    expect_put(&rt, &large, 65_536, 99, Ok(()), 16);
    expect_put(&rt, &large, 65_536, 16, Err(Trouble::Failed), 16);
    Ok(())
}

/// Words of these lengths behind the program's name, the last one of which is no UTF-8 where that is said.
#[derive(Drop)]
struct Line {
    lengths: Vec<usize>,
    broken: usize,
}

impl Arguments for Line {
    ghost words = { λ _. None };

    fn word_at(&self, place: usize, buf: &mut [u8]) -> Result<usize, FillError>
        ensures bound { WritesAtMost result buf.new }
    {
        if place == 0 {
            return Ok(0);
        }
        let Some(length) = self.lengths.get(place - 1) else {
            return Err(FillError::NotPresent);
        };
        if *length > buf.len() {
            return Err(FillError::TooLong);
        }
        let byte = if place == self.broken { 0xff } else { b'w' };
        buf[..*length].fill(byte);
        Ok(*length)
    }
}

// Words of these lengths are given whole and in order.
fn expect_words(
    rt: &impl Abort,
    alloc: Global,
    lengths: &[usize],
    broken: usize,
) -> Result<(), AllocError> {
    let line = Line {
        lengths: lengths.to_vec(alloc)?,
        broken,
    };
    let words = words_given(alloc, &line)?;
    expect_given(rt, &words, &line);
    Ok(())
}

// The words have their lengths, but for one that is no UTF-8, which is given as an empty one.
fn expect_given(rt: &impl Abort, words: &[String], line: &Line) {
    assert!(rt; words.len() == line.lengths.len());
    for (place, (word, length)) in words.iter().zip(&line.lengths).enumerate() {
        let is_broken = place as u64 + 1 == line.broken as u64;
        let wanted = if is_broken { 0 } else { *length };
        assert!(rt; word.len() == wanted, "{place}");
    }
}

#[test]
fn words_of_any_length_and_number(rt: HostRuntime) -> Result<(), Fail> {
    let alloc = rt.alloc();
    expect_words(&rt, alloc, &[], 0)?;
    expect_words(&rt, alloc, &[4, 256, 0, 257, 5_000, 1], 0)?;
    expect_words(&rt, alloc, &[4, 5, 6], 2)?;
    expect_words(&rt, alloc, &[7; 300], 0)?;
    expect_words(&rt, alloc, &[7; 300], 299)?;
    Ok(())
}
