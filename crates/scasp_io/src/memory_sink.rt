ghost use Rattle.std.specs.Prelude.{◌≤◌, vec_len, vec_capacity};

use crate::errors::Failed;
use crate::lists::CallList;
use crate::outside::Sink;
use scasp_list::Memory;
use std::alloc::Global;

/// A sink in memory, for tests. It takes at most `chunk` bytes a call and `room` bytes in all.
/// A write fails where its number, the first being 1, is among the failing ones, and where it can
/// take nothing of bytes that are not none; each failure is counted as a fault.
#[derive(Debug, Drop)]
pub struct MemSink {
    pub taken: Vec<u8>,
    /// The most bytes that it takes in all.
    pub room: u64,
    /// The most bytes that it takes in one call.
    pub chunk: u64,
    /// The numbers of the calls that fail.
    pub failing: CallList,
    /// How many calls there were, at most 2^64 - 1.
    pub calls: u64,
    /// How many of them failed, at most 2^64 - 1.
    pub faults: u64,
    // What is left of the room is reserved, so that a write takes no memory.
    pub ghost within: { vec_len taken ≤ room },
    pub ghost reserved: { room ≤ vec_capacity taken },
}

impl MemSink {
    ghost use Rattle.std.specs.Prelude.{◌≡◌, IfOk};
    ghost use Rattle.scasp_io.specs.MemorySink.{IsEmpty};

    /// A sink with nothing taken. The memory for `room` bytes is taken here, so that a write takes
    /// none.
    pub fn new(alloc: Global, room: u64, chunk: u64, failing: CallList) -> Result<MemSink, Memory>
        ensures empty { IfOk result (λ sink. IsEmpty sink) }
        ensures room { IfOk result (λ sink. sink.room ≡ room) }
        ensures chunk { IfOk result (λ sink. sink.chunk ≡ chunk) }
        ensures failing { IfOk result (λ sink. sink.failing ≡ failing) }
    {
        Ok(MemSink {
            taken: Vec::with_capacity(alloc, room as usize)?,
            room,
            chunk,
            failing,
            calls: 0,
            faults: 0,
        })
    }
}

impl Sink for MemSink {
    ghost use Rattle.std.specs.Prelude.{◌≡◌, ◌≤◌, ◌++◌, length, take, Some, is_err, IfOk, OnErr};
    ghost use Rattle.scasp_io.specs.Counts.{Rose};
    ghost use Rattle.scasp_io.specs.MemorySink.{AfterWrite, fitting, is_refused};

    ghost taken = { λ sink. Some sink.taken.items };

    ghost faults = { λ sink. sink.faults };

    /// Takes as many bytes as the chunk and the room allow.
    fn write(&mut self, bytes: &[u8]) -> Result<usize, Failed>
        ensures count { IfOk result (λ count. count ≡ fitting self.old (length bytes.now)) }
        ensures refused { is_err result ≡ is_refused self.old (length bytes.now) }
        ensures ok { IfOk result (λ count. self.new.taken.items ≡ self.old.taken.items ++ take count bytes.now) }
        ensures err { OnErr result (self.new.taken.items ≡ self.old.taken.items) }
        ensures after { AfterWrite self.old self.new (is_err result) }
        ensures cause { OnErr result (Rose self.old.faults self.new.faults) }
        ensures counts { self.old.faults ≤ self.new.faults }
    {
        self.calls = self.calls.saturating_add(1);
        let left = self.room - self.taken.len() as u64;
        let count = bytes.len().min(self.chunk.min(left) as usize);
        let nothing = count == 0 && !bytes.is_empty();
        if nothing || self.failing.as_slice().contains(&self.calls) {
            self.faults = self.faults.saturating_add(1);
            return Err(Failed);
        }
        self.taken.extend_from_slice(&bytes[..count]).unwrap();
        Ok(count)
    }
}
