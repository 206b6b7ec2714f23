//! Places: what holds at a line.
ghost use Rattle.std.specs.Prelude.{◌≡◌, IfOk};
ghost use Rattle.scasp_lines.specs.Places.{below_literal, start, within_case};
ghost use Rattle.scasp_lines_places.specs.Places.View.{place_of};

use crate::places::chain::Chain;
use scasp_list::Memory;
use scasp_name::NameId;
use scasp_syntax::{Atom, Con, DeepCopy};
use scasp_unify::Binding;
use std::alloc::Global;

/// What opened on the way to a line.
#[derive(Debug, Drop)]
pub enum Entry {
    /// The variable of a clause has a value in the domain.
    Ranges(u64),
    /// The variable `of` is this name with `size` arguments, which the variables from `first` on stand for.
    Shaped {
        of: u64,
        name: NameId,
        first: u64,
        size: u64,
    },
    /// The constraint is true.
    Assumed(Con),
}

/// A line of a positive or a negated literal above a line.
#[derive(Debug, Drop)]
pub struct Ancestor {
    pub at: u64,
    pub positive: bool,
    pub atom: Atom,
}

/// A case around a line. It is plain where its cover's clause has no variable and no argument in its head, and no split stands
/// above it there.
#[derive(Debug, Drop)]
pub struct Enclosing {
    pub at: u64,
    pub plain: bool,
}

/// What holds at a line. Places share their lists, so a deeper one takes memory only for what it adds.
#[derive(Drop)]
pub struct Place {
    /// What opened.
    pub opened: Chain<Entry>,
    /// The next part that appears on no line.
    pub hidden: u64,
    /// Variables that are replaced, each by a term in which those outside of it have been replaced.
    pub replaced: Chain<Binding>,
    /// The literals above.
    pub above: Chain<Ancestor>,
    /// The cases around.
    pub around: Chain<Enclosing>,
}

impl Place {
    /// The start: nothing opened, nothing replaced, nothing above or around. It takes no memory.
    pub fn start(hidden: u64) -> Place
        ensures { place_of result ≡ start hidden }
    {
        Place {
            opened: Chain::new(),
            hidden,
            replaced: Chain::new(),
            above: Chain::new(),
            around: Chain::new(),
        }
    }

    /// The same place. It takes no memory.
    pub fn share(&self) -> Result<Place, Memory>
        ensures { IfOk result (λ made. place_of made ≡ place_of self.now) }
    {
        Ok(Place {
            opened: self.opened.share()?,
            hidden: self.hidden,
            replaced: self.replaced.share()?,
            above: self.above.share()?,
            around: self.around.share()?,
        })
    }

    /// Below the line of a literal.
    pub fn below_literal(
        &self,
        alloc: Global,
        at: u64,
        positive: bool,
        atom: &Atom,
    ) -> Result<Place, Memory>
        ensures { IfOk result (λ made. place_of made ≡ below_literal at positive atom.now (place_of self.now)) }
    {
        let atom = atom.copy(alloc)?;
        let above = self.above.with(alloc, Ancestor { at, positive, atom })?;
        Ok(Place {
            opened: self.opened.share()?,
            hidden: self.hidden,
            replaced: self.replaced.share()?,
            above,
            around: self.around.share()?,
        })
    }

    /// Within a case.
    pub fn within_case(&self, alloc: Global, at: u64, plain: bool) -> Result<Place, Memory>
        ensures { IfOk result (λ made. place_of made ≡ within_case at plain (place_of self.now)) }
    {
        let around = self.around.with(alloc, Enclosing { at, plain })?;
        Ok(Place {
            opened: self.opened.share()?,
            hidden: self.hidden,
            replaced: self.replaced.share()?,
            above: self.above.share()?,
            around,
        })
    }
}
