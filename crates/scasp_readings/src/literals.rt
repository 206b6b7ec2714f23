//! Literals as bindings read them.
ghost use Rattle.std.specs.Prelude.{◌≡◌, IfOk};
ghost use Rattle.scasp_readings.specs.Readings.{reading};
ghost use Rattle.scasp_search_rules.specs.Successors.Calls.{lit_under};
ghost use Rattle.scasp_syntax.specs.Instances.{atom_under};
ghost use Rattle.scasp_unify.specs.Solving.{sub_of};

use scasp_bound::Bound;
use scasp_list::Memory;
use scasp_syntax::{Atom, Lit};
use std::alloc::Global;

/// The atom as the bindings read it.
pub fn read_atom(alloc: Global, bound: &Bound, atom: &Atom) -> Result<Atom, Memory>
    ensures { IfOk result (λ read. read ≡ atom_under (sub_of bound.now.now) atom.now) }
{
    Ok(Atom {
        minus: atom.minus,
        name: atom.name,
        args: bound.read_terms(alloc, &atom.args)?,
    })
}

/// The literal as the bindings read it.
pub fn read_lit(alloc: Global, bound: &Bound, lit: &Lit) -> Result<Lit, Memory>
    ensures { IfOk result (λ read. read ≡ lit_under (reading bound.now.now) lit.now) }
{
    Ok(Lit {
        positive: lit.positive,
        atom: read_atom(alloc, bound, &lit.atom)?,
    })
}
