//! Which variables may stand on a line.
ghost use Rattle.std.specs.Prelude.{◌≡◌};

use scasp_checker_answer::Scope;
use scasp_lines_places::{Bounds, Place, in_scope, is_universal};
use scasp_list::Memory;
use std::alloc::Global;

/// The variables that may stand on a line.
#[derive(Drop)]
pub struct InScope<'a> {
    pub bounds: Bounds,
    pub here: &'a Place,
}

impl Scope for InScope<'_> {
    ghost use Rattle.scasp_lines.specs.Places.{in_scope};
    ghost use Rattle.scasp_lines_places.specs.Places.View.{place_of};

    ghost known = { λ s. in_scope s.bounds.free s.bounds.top (place_of s.here.now) };

    fn knows(&self, _alloc: Global, x: u64) -> Result<bool, Memory> {
        Ok(in_scope(self.bounds.free, self.bounds.top, self.here, x))
    }
}

/// The universal variables that may stand on a line and are not replaced.
#[derive(Drop)]
pub struct Universal<'a> {
    pub bounds: Bounds,
    pub here: &'a Place,
}

impl Scope for Universal<'_> {
    ghost use Rattle.scasp_lines.specs.Places.{is_universal};
    ghost use Rattle.scasp_lines_places.specs.Places.View.{place_of};

    ghost known = { λ s. is_universal s.bounds.free s.bounds.top (place_of s.here.now) };

    fn knows(&self, alloc: Global, x: u64) -> Result<bool, Memory> {
        is_universal(alloc, self.bounds.free, self.bounds.top, self.here, x)
    }
}
