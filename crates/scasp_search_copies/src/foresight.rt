//! Nothing is told of terms before they are equated.
use crate::copied::Copied;
use scasp_list::Memory;
use scasp_search_state::Situation;
use scasp_search_steps::{Expected, Foresees};
use scasp_syntax::{Cons, Lit, Term};
use std::alloc::Global;

impl Foresees for Copied {
    ghost use Rattle.std.specs.Prelude.{false};

    ghost foresees = { false };

    fn expected(&self, _alloc: Global, _term: &Term) -> Result<Expected, Memory> {
        Ok(Expected::Open)
    }

    fn unclear_opposites(&self, alloc: Global, lit: &Lit) -> Result<Cons, Memory> {
        let made = self.opposites(alloc, lit)?;
        Ok(made)
    }
}
