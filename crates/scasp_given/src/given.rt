//! Given constraints in order.
ghost use Rattle.std.specs.Prelude.{◌≡◌, [], ◌∷◌, ◌++◌, OnOk, OnErr};
ghost use Rattle.scasp_trail.specs.Past.{earlier, is_marked, latest};

use scasp_list::Memory;
use scasp_syntax::Con;
use scasp_trail::Trailed;
use std::alloc::Global;
use std::marker::Model;

/// What is assumed of the existential variables, in the order in which it was given.
pub struct Given {
    list: Trailed<Con>,
}

impl Drop for Given {
    /// Frees the parts. The crates above call this, and need not prove how each part is freed.
    fn drop(self) {
        let Given { list } = self;
        drop(list);
    }
}

impl Model for Given {
    ghost use Rattle.scasp_syntax.specs.TmCode.{coded_tms};
    ghost use Rattle.std.specs.Coded.{codes};
    ghost use Rattle.scasp_syntax.specs.declared.con.Con.{Con};
    ghost use Rattle.scasp_trail.specs.Past.{Past};

    ghost Value = { Past Con };

    ghost coded = { Prim.hlevel (codes, coded_tms) };

    ghost view = { λ g. g.list };
}

impl Given {
    /// No constraints and no mark; no memory is taken.
    pub fn new(alloc: Global) -> Given
        ensures { result ≡ record { now = []; before = [] } }
    {
        Given {
            list: Trailed::new(alloc),
        }
    }

    /// The constraints.
    pub fn as_slice(&self) -> &[Con]
        ensures { result.now ≡ self.now.now }
    {
        self.list.as_slice()
    }

    /// The constraint is given from now on.
    pub fn give(&mut self, constraint: Con) -> Result<(), Memory>
        ensures now { OnOk result (self.new.now ≡ self.old.now ++ constraint ∷ []) }
        ensures before { self.new.before ≡ self.old.before }
        ensures unchanged { OnErr result (self.new ≡ self.old) }
    {
        self.list.push(constraint)?;
        Ok(())
    }

    /// Whether there is a mark.
    pub fn is_marked(&self) -> bool
        ensures { result ≡ is_marked self.now.before }
    {
        self.list.is_marked()
    }

    /// Marks the constraints as they are now.
    pub fn mark(&mut self) -> Result<(), Memory>
        ensures now { self.new.now ≡ self.old.now }
        ensures before { OnOk result (self.new.before ≡ self.old.now ∷ self.old.before) }
        ensures unchanged { OnErr result (self.new ≡ self.old) }
    {
        self.list.mark()?;
        Ok(())
    }

    /// Makes the constraints again what they were at the latest mark, which is taken away; without a mark they stay as they
    /// are. No memory is taken.
    pub fn leave(&mut self)
        ensures now { self.new.now ≡ latest self.old.now self.old.before }
        ensures before { self.new.before ≡ earlier self.old.before }
    {
        self.list.leave();
    }
}
