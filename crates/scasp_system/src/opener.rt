//! Where files are opened.
ghost use Rattle.std.specs.Prelude.{ℕ, List, Option, IfOk};
ghost use Rattle.scasp_system.specs.Standing.{StandsAt};

use std::io;
use std::io::Read;

/// Opens files by their names.
///
/// `told` is the bytes of the file of a name, or None where they are not told.
pub trait Opener {
    type File: Read + Drop;

    ghost told: { Self → List ℕ → Option (List ℕ) };

    /// Opens the file at its first byte.
    fn open(&self, name: &str) -> io::Result<Self::File>
        ensures { IfOk result (λ file. StandsAt (told self.now name.now) 0 (Self.File.remaining file)) };
}
