//! Whole reads and writes, over files and sinks in memory.
use crate::samples::{failing_file, one_file, sample};
use scasp_io::{
    MemSink, Memory, ReadErr, SinkFault, SureFiles, SureSink, read_file, read_sure, write_all,
    write_sure,
};
use scasp_test_samples::one;
use std::alloc::Global;
use std::hash::RandomState;
use std::test::Fail;

/// The length of the file `p`, the name that is read, the number of the read that fails, and the limit; and what is answered, if
/// it is no bytes, with the numbers of reads and of faults.
#[derive(Clone, Copy)]
struct Reading<'a> {
    length: u64,
    name: &'a str,
    failing: u64,
    limit: u64,
    error: Option<ReadErr>,
    calls: u64,
    faults: u64,
}

/// A whole read of 5,000 bytes, in three reads.
const WHOLE: Reading = Reading {
    length: 5_000,
    name: "p",
    failing: 9,
    limit: 5_000,
    error: None,
    calls: 3,
    faults: 0,
};

const READINGS: &[Reading] = &[
    WHOLE,
    Reading {
        length: 10_000,
        limit: 20_000,
        calls: 4,
        ..WHOLE
    },
    Reading {
        length: 5_001,
        error: Some(ReadErr::TooLong),
        calls: 2,
        ..WHOLE
    },
    Reading {
        length: 4_096,
        limit: 4_096,
        calls: 2,
        ..WHOLE
    },
    Reading {
        length: 0,
        limit: 0,
        calls: 1,
        ..WHOLE
    },
    Reading {
        length: 1,
        limit: 0,
        error: Some(ReadErr::TooLong),
        calls: 1,
        ..WHOLE
    },
    Reading {
        name: "q",
        error: Some(ReadErr::Fault),
        calls: 1,
        faults: 1,
        ..WHOLE
    },
    Reading {
        failing: 1,
        error: Some(ReadErr::Fault),
        calls: 1,
        faults: 1,
        ..WHOLE
    },
    Reading {
        failing: 3,
        error: Some(ReadErr::Fault),
        faults: 1,
        ..WHOLE
    },
];

/// Whether the bytes are read, or refused, as they should be.
fn is_read(alloc: Global, row: &Reading, keys: RandomState) -> Result<bool, Memory> {
    let bytes = sample(alloc, row.length)?;
    let mut files = failing_file(alloc, bytes.as_slice(), row.failing, keys)?;
    let is_answered = match read_file(alloc, &mut files, row.name, row.limit) {
        Ok(all) => row.error.is_none() && all.as_slice() == bytes.as_slice(),
        Err(error) => row.error == Some(error),
    };
    Ok(is_answered && files.calls == row.calls && files.faults == row.faults)
}

#[test]
fn reads_whole_files(rt: HostRuntime) -> Result<(), Fail> {
    let keys = RandomState::new(&rt)?;
    for (number, row) in READINGS.iter().enumerate() {
        assert!(rt; is_read(rt.alloc(), row, keys)?, "at {number}");
    }
    Ok(())
}

/// The room of the sink, the most bytes of a write, the number of the write that fails, how many bytes are written, whether all are
/// taken, how many are, and in how many writes.
type Writing = (u64, u64, u64, u64, bool, u64, u64);

const WRITINGS: &[Writing] = &[
    (100, 4, 3, 10, false, 8, 3),
    (100, 4, 9, 10, true, 10, 3),
    (10, 4, 9, 10, true, 10, 3),
    (6, 4, 9, 10, false, 6, 3),
    (100, 0, 9, 10, false, 0, 1),
    (1_000, 1_000, 9, 10, true, 10, 1),
    (1_000, 1_000, 1, 0, true, 0, 0),
];

/// Whether the bytes are taken as they should be.
fn is_written(alloc: Global, row: &Writing) -> Result<bool, Memory> {
    let (room, chunk, failing, length, is_whole, taken, calls) = *row;
    let bytes = sample(alloc, length)?;
    let mut sink = MemSink::new(alloc, room, chunk, one(alloc, failing)?)?;
    let answer = write_all(&mut sink, bytes.as_slice());
    let wanted = if is_whole { Ok(()) } else { Err(SinkFault) };
    let is_taken = sink.taken.as_slice() == sample(alloc, taken)?.as_slice();
    let faults = if is_whole { 0 } else { 1 };
    Ok(answer == wanted && is_taken && sink.calls == calls && sink.faults == faults)
}

#[test]
fn writes_all_bytes(rt: HostRuntime) -> Result<(), Fail> {
    for (number, row) in WRITINGS.iter().enumerate() {
        assert!(rt; is_written(rt.alloc(), row)?, "at {number}");
    }
    Ok(())
}

#[test]
fn never_fails(rt: HostRuntime) -> Result<(), Fail> {
    let bytes = sample(rt.alloc(), 5_000)?;
    let file = one_file(rt.alloc(), bytes.as_slice())?;
    let mut files = SureFiles::new(file, RandomState::new(&rt)?);
    let all = read_sure(rt.alloc(), &mut files, "p", 5_000)?;
    assert_eq!(rt; all.as_slice(), bytes.as_slice());
    assert!(rt; read_sure(rt.alloc(), &mut files, "q", 0)?.is_empty());
    write_sure(&mut SureSink, all.as_slice())?;
    Ok(())
}
