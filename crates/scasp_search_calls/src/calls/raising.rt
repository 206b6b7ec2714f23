//! Variables raised by a number.
ghost use Rattle.std.specs.Prelude.{◌≡◌, IfOk};
ghost use Rattle.scasp_search_calls.specs.Calls.Raising.{raised_by};

use scasp_lines_places::Substitution;
use scasp_list::Memory;
use scasp_syntax::Term;
use std::alloc::Global;

/// Each variable raised by `by`, as a substitution.
#[derive(Clone, Copy, Debug)]
pub struct Raised {
    pub by: u64,
}

impl Substitution for Raised {
    ghost gives = { raised_by };

    fn value(&self, _alloc: Global, x: u64) -> Result<Term, Memory> {
        match x.checked_add(self.by) {
            Some(raised) => Ok(Term::Var(raised)),
            None => Err(Memory),
        }
    }
}
