//! A writer of the system as a sink.
ghost use Rattle.std.specs.Prelude.{◌≡◌, ◌≤◌, ◌<◌, length, take, None, IfOk, OnErr};
ghost use Rattle.std.specs.Io.KnownBytes.{WriteAppends};
ghost use Rattle.scasp_io.specs.Bytes.{behind};
ghost use Rattle.scasp_io.specs.Counts.{Rose};

use crate::retrying::write_retrying;
use scasp_io::{Failed, Sink};
use std::io::Write;

/// A writer, as standard output. It tells nothing as a sink, since a writer may begin to tell its bytes at any
/// time; what reaches the writer is a clause of `write`.
#[derive(Drop)]
pub struct SystemSink<W: Write + Drop> {
    pub writer: W,
    /// How many writes failed, at most 2^64 - 1.
    pub faults: u64,
}

impl<W: Write + Drop> SystemSink<W> {
    pub fn new(writer: W) -> SystemSink<W>
        ensures { result ≡ record { writer = writer; faults = 0 } }
    {
        SystemSink { writer, faults: 0 }
    }
}

impl<W: Write + Drop> Sink for SystemSink<W> {
    ghost taken = { λ _. None };

    ghost faults = { λ sink. sink.faults };

    /// Hands the bytes to the writer. That it takes none of bytes that are not none is a fault.
    fn write(&mut self, bytes: &[u8]) -> Result<usize, Failed>
        ensures bound { IfOk result (λ count. count ≤ length bytes.now) }
        ensures progress { IfOk result (λ count. 0 < length bytes.now → 0 < count) }
        ensures cause { OnErr result (Rose self.old.faults self.new.faults) }
        ensures counts { self.old.faults ≤ self.new.faults }
        ensures passes { WriteAppends (W.contents self.old.writer) (W.contents self.new.writer) result bytes.now }
    {
        match write_retrying(&mut self.writer, bytes) {
            Ok(count) if count > 0 || bytes.is_empty() => Ok(count),
            _ => {
                self.faults = self.faults.saturating_add(1);
                Err(Failed)
            }
        }
    }
}
