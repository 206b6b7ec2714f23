//! What a certificate says over a domain.
ghost use Rattle.std.specs.Prelude.{◌≡◌, [], IfOk};
ghost use Rattle.scasp_model.specs.Residual.{is_known, is_known_false, is_known_true};

use scasp_list::Memory;
use scasp_syntax::{Atom, Lit};
use scasp_tables::AtomTable;
use std::alloc::Global;
use std::hash::RandomState;

/// The atoms that a certificate says are true, and those that it says are false.
#[derive(Drop)]
pub struct Told {
    pub trues: AtomTable,
    pub falses: AtomTable,
}

impl Told {
    /// No atoms; those to come are hashed by the keys. It takes no memory.
    pub(crate) fn new(alloc: Global, random: RandomState) -> Told
        ensures trues { result.trues ≡ [] }
        ensures falses { result.falses ≡ [] }
    {
        Told {
            trues: AtomTable::new(alloc, random),
            falses: AtomTable::new(alloc, random),
        }
    }

    /// Whether the literal is true by what is told.
    pub(crate) fn is_true(&self, alloc: Global, literal: &Lit) -> Result<bool, Memory>
        ensures { IfOk result (λ answer. answer ≡ is_known_true self.now.trues self.now.falses literal.now) }
    {
        if literal.positive {
            self.trues.contains(alloc, &literal.atom)
        } else {
            self.falses.contains(alloc, &literal.atom)
        }
    }

    /// Whether the literal is false by what is told.
    pub(crate) fn is_false(&self, alloc: Global, literal: &Lit) -> Result<bool, Memory>
        ensures { IfOk result (λ answer. answer ≡ is_known_false self.now.trues self.now.falses literal.now) }
    {
        if literal.positive {
            self.falses.contains(alloc, &literal.atom)
        } else {
            self.trues.contains(alloc, &literal.atom)
        }
    }

    /// Whether there is a head, and the certificate says that it is true or that it is false.
    pub(crate) fn knows(&self, alloc: Global, head: &Option<Atom>) -> Result<bool, Memory>
        ensures { IfOk result (λ answer. answer ≡ is_known self.now.trues self.now.falses head.now) }
    {
        match head {
            None => Ok(false),
            Some(atom) => {
                if self.trues.contains(alloc, atom)? {
                    return Ok(true);
                }
                self.falses.contains(alloc, atom)
            }
        }
    }
}
