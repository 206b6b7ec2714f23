//! Terms and atoms with their variables replaced.
ghost use Rattle.std.specs.Prelude.{◌≡◌, IfOk};
ghost use Rattle.scasp_syntax.specs.Instances.{atom_under};
ghost use Rattle.scasp_syntax.specs.Tm.{items};
ghost use Rattle.scasp_syntax.specs.Values.{under, all_under, giving};
ghost use Rattle.scasp_syntax.specs.View.{tm_of};

use crate::atom::Atom;
use crate::copies::copy;
use crate::rebuilding::{Values, rebuilt};
use crate::term::{Term, Terms};
use scasp_name::Memory;
use std::alloc::Global;

impl Values for Terms {
    ghost gives = { λ values. giving (items values) };

    /// What variable `x` stands for, which is the value at that place; behind n values variable x + n stands for variable x.
    fn value_of(&self, alloc: Global, x: u64) -> Result<Term, Memory> {
        match self.get(x as usize) {
            Some(value) => Ok(copy(alloc, value)?),
            None => Ok(Term::Var(x - self.len() as u64)),
        }
    }
}

/// The term with each variable replaced by the value at its place. It takes memory for what is still to be made, and no machine stack.
pub fn instance(alloc: Global, term: &Term, values: &Terms) -> Result<Term, Memory>
    ensures { IfOk result (λ made. tm_of made ≡ under (giving (items values.now)) (tm_of term.now)) }
{
    match term {
        Term::Var(x) => values.value_of(alloc, *x),
        Term::Num(value) => Ok(Term::Num(*value)),
        Term::App(name, args) => Ok(Term::App(*name, instance_terms(alloc, args, values)?)),
    }
}

/// The terms with each variable replaced by the value at its place, with memory as `instance`.
pub fn instance_terms(alloc: Global, terms: &Terms, values: &Terms) -> Result<Terms, Memory>
    ensures { IfOk result (λ made. made ≡ all_under (giving (items values.now)) terms.now) }
{
    rebuilt(alloc, terms.as_slice(), values)
}

/// The atom with each variable replaced by the value at its place.
pub fn instance_atom(alloc: Global, atom: &Atom, values: &Terms) -> Result<Atom, Memory>
    ensures { IfOk result (λ made. made ≡ atom_under (giving (items values.now)) atom.now) }
{
    Ok(Atom {
        minus: atom.minus,
        name: atom.name,
        args: instance_terms(alloc, &atom.args, values)?,
    })
}
