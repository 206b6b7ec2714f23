ghost use Rattle.std.specs.Prelude.{◌≡◌, ℕ, ◌<◌, ◌≤◌, List, length, take, Option, IfOk, OnErr};
ghost use Rattle.scasp_io.specs.Counts.{Rose};
ghost use Rattle.scasp_io.specs.Bytes.{Fills, behind};

use crate::errors::Failed;
use std::hash::RandomState;

/// Where files are read from by their names.
///
/// `told` is the bytes of a name, or None where they are not told. `faults` is the count of the
/// faults of reading a name; one count may serve for several names.
pub trait Files {
    ghost told: { Self → List ℕ → Option (List ℕ) };

    ghost faults: { Self → List ℕ → ℕ };

    /// Reads bytes of the file from its byte `at`, the first being 0, to the front of the buffer,
    /// and returns how many. It is 0 for a buffer that is not empty only at the end of the file.
    fn read(&mut self, name: &str, at: u64, buffer: &mut [u8]) -> Result<usize, Failed>
        ensures bound { IfOk result (λ count. count ≤ length buffer.new) }
        ensures fills { IfOk result (λ count. Fills (told self.old name.now) at buffer.new count) }
        ensures cause { OnErr result (Rose (faults self.old name.now) (faults self.new name.now)) }
        ensures stays { (other : List ℕ) → told self.new other ≡ told self.old other }
        ensures counts { (other : List ℕ) → faults self.old other ≤ faults self.new other };

    /// The keys by which tables over what the files hold are hashed. Whoever writes a file does not know keys that were drawn at
    /// random. No promise depends on the keys, so nothing is said of them.
    fn hash_keys(&self) -> RandomState;
}

/// Where bytes are written to.
///
/// `taken` is the bytes taken so far, or None where they are not told. `faults` is the count of
/// the faults of writing.
pub trait Sink {
    ghost taken: { Self → Option (List ℕ) };

    ghost faults: { Self → ℕ };

    /// Takes a first part of the bytes, and returns how many. It takes at least one of bytes that
    /// are not none, or it fails; after a failure nothing was taken.
    fn write(&mut self, bytes: &[u8]) -> Result<usize, Failed>
        ensures bound { IfOk result (λ count. count ≤ length bytes.now) }
        ensures progress { IfOk result (λ count. 0 < length bytes.now → 0 < count) }
        ensures ok { IfOk result (λ count. taken self.new ≡ behind (taken self.old) (take count bytes.now)) }
        ensures err { OnErr result (taken self.new ≡ taken self.old) }
        ensures cause { OnErr result (Rose (faults self.old) (faults self.new)) }
        ensures counts { faults self.old ≤ faults self.new };
}
