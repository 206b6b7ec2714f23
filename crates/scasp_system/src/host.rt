//! The files of the system that the program runs on.
ghost use Rattle.std.specs.Prelude.{None};

use crate::opener::Opener;
use std::{fs, io, rt};

/// The files of a runtime, by their paths. It does not tell their bytes.
#[derive(Drop)]
pub struct HostFiles<'a, R>(pub &'a R);

impl<R: rt::Files> Opener for HostFiles<'_, R> {
    type File = R::File;

    ghost told = { λ _ _. None };

    fn open(&self, name: &str) -> io::Result<R::File> {
        fs::open(self.0, name)
    }
}
