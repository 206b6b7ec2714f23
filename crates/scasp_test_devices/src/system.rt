//! The edge to the system, over openers and writers made here.
ghost use Rattle.std.specs.Prelude.{Some, None, if◌then◌else◌};
ghost use Rattle.std.specs.Str.{bytes_eq};

use crate::samples::sample;
use scasp_io::{Files, ReadErr, SinkFault, read_file, write_all};
use scasp_system::{Opener, SystemFiles, SystemSink, command_words};
use std::alloc::{AllocError, Global};
use std::hash::RandomState;
use std::io;
use std::io::{Read, Write};
use std::test::Fail;

/// One file, whose bytes are told.
#[derive(Drop)]
struct OneFile<'a> {
    name: &'a str,
    bytes: &'a [u8],
}

impl<'a> Opener for OneFile<'a> {
    type File = &'a [u8];

    ghost told = { λ files name. if bytes_eq files.name.now name then Some files.bytes.now else None };

    fn open(&self, name: &str) -> io::Result<&'a [u8]> {
        if self.name == name {
            return Ok(self.bytes);
        }
        Err(io::Error::from(io::ErrorKind::NotFound))
    }
}

/// Bytes of which a read gives three at most; the first read of a file is interrupted, and the third fails.
#[derive(Drop)]
struct Stutter<'a> {
    left: &'a [u8],
    reads: u64,
}

impl Read for Stutter<'_> {
    fn read(&mut self, buffer: &mut [u8]) -> io::Result<usize> {
        self.reads = self.reads.saturating_add(1);
        if self.reads == 1 {
            return Err(io::Error::from(io::ErrorKind::Interrupted));
        }
        if self.reads == 3 {
            return Err(io::Error::from(io::ErrorKind::Other));
        }
        let most = buffer.len().min(3);
        self.left.read(&mut buffer[..most])
    }
}

#[derive(Drop)]
struct Stuttering<'a> {
    bytes: &'a [u8],
}

impl<'a> Opener for Stuttering<'a> {
    type File = Stutter<'a>;

    ghost told = { λ _ _. None };

    fn open(&self, _name: &str) -> io::Result<Stutter<'a>> {
        Ok(Stutter {
            left: self.bytes,
            reads: 0,
        })
    }
}

/// Whether the file is read whole, or refused, as it should be.
fn is_read<'a>(
    alloc: Global,
    files: &mut SystemFiles<OneFile<'a>>,
    row: (&str, u64, Option<ReadErr>),
    bytes: &[u8],
) -> bool {
    let (name, limit, error) = row;
    match read_file(alloc, files, name, limit) {
        Ok(all) => error.is_none() && all.as_slice() == bytes,
        Err(met) => error == Some(met),
    }
}

#[test]
fn reads_whole_files(rt: HostRuntime) -> Result<(), Fail> {
    let bytes = sample(rt.alloc(), 10_000)?;
    let rows = [
        ("p", 20_000, None),
        ("p", 9_999, Some(ReadErr::TooLong)),
        ("q", 20_000, Some(ReadErr::Fault)),
        ("p", 10_000, None),
    ];
    let opener = OneFile {
        name: "p",
        bytes: bytes.as_slice(),
    };
    let mut files = SystemFiles::new(rt.alloc(), opener, RandomState::new(&rt)?);
    for row in rows {
        assert!(rt; is_read(rt.alloc(), &mut files, row, bytes.as_slice()));
    }
    Ok(())
}

#[test]
fn reads_at_any_byte(rt: HostRuntime) -> Result<(), Fail> {
    let bytes = sample(rt.alloc(), 10_000)?;
    let opener = OneFile {
        name: "p",
        bytes: bytes.as_slice(),
    };
    let mut files = SystemFiles::new(rt.alloc(), opener, RandomState::new(&rt)?);
    let mut buffer = [0u8; 8];
    let rows: [(usize, usize); 8] = [
        (0, 8),
        (8, 8),
        (9_000, 8),
        (50, 8),
        (9_996, 4),
        (10_000, 0),
        (10_001, 0),
        (0, 8),
    ];
    for (at, want) in rows {
        assert_eq!(rt; files.read("p", at as u64, &mut buffer), Ok(want), "{at}");
        let wanted = bytes.as_slice().iter().skip(at).take(want);
        assert!(rt; buffer.iter().zip(wanted).all(|(x, y)| *x == *y), "{at}");
    }
    Ok(())
}

#[test]
fn a_read_that_fails_is_counted(rt: HostRuntime) -> Result<(), Fail> {
    let opener = Stuttering { bytes: b"abcdefgh" };
    let mut files = SystemFiles::new(rt.alloc(), opener, RandomState::new(&rt)?);
    let mut buffer = [0u8; 8];
    assert_eq!(rt; files.read("p", 0, &mut buffer), Ok(3));
    assert!(rt; files.read("p", 3, &mut buffer).is_err());
    assert!(rt; files.read("p", 3, &mut buffer).is_err());
    assert_eq!(rt; files.read("p", 0, &mut buffer), Ok(3));
    Ok(())
}

/// A writer that takes so many bytes a call at most, and whose first write is interrupted.
#[derive(Drop)]
struct Narrow {
    taken: Vec<u8>,
    most: usize,
    is_interrupted: bool,
}

impl Write for Narrow {
    fn write(&mut self, bytes: &[u8]) -> io::Result<usize> {
        if !self.is_interrupted {
            self.is_interrupted = true;
            return Err(io::Error::from(io::ErrorKind::Interrupted));
        }
        let count = bytes.len().min(self.most);
        self.taken.extend_from_slice(&bytes[..count])?;
        Ok(count)
    }

    fn flush(&mut self) -> io::Result<()> {
        Ok(())
    }
}

/// Whether a writer that takes so many bytes a call takes these, with so many faults.
fn is_written(alloc: Global, most: usize, taken: &[u8], faults: u64) -> bool {
    let mut sink = SystemSink::new(Narrow {
        taken: Vec::new(alloc),
        most,
        is_interrupted: false,
    });
    let answer = write_all(&mut sink, b"abcdefg");
    let wanted = if faults == 0 { Ok(()) } else { Err(SinkFault) };
    answer == wanted && sink.writer.taken.as_slice() == taken && sink.faults == faults
}

#[test]
fn writes_all_or_counts_a_fault(rt: HostRuntime) {
    let rows: [(usize, &[u8], u64); 3] = [(9, b"abcdefg", 0), (3, b"abcdefg", 0), (0, b"", 1)];
    for (most, taken, faults) in rows {
        assert!(rt; is_written(rt.alloc(), most, taken, faults), "{most}");
    }
}

/// The words behind the first of so many arguments.
fn words_of(alloc: Global, count: usize) -> Result<Vec<String>, AllocError> {
    let mut arguments = Vec::new(alloc);
    for word in ["scasp", "run", "file"].iter().take(count) {
        arguments.push(String::from_str(alloc, word)?)?;
    }
    command_words(alloc, arguments.into_iter())
}

#[test]
fn words_stand_behind_the_name(rt: HostRuntime) -> Result<(), Fail> {
    for count in 0..4usize {
        let words = words_of(rt.alloc(), count)?;
        assert_eq!(rt; words.len(), count.saturating_sub(1));
        for (word, want) in words.as_slice().iter().zip(["run", "file"]) {
            assert!(rt; word.as_str() == want);
        }
    }
    Ok(())
}
