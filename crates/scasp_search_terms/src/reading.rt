//! Terms, atoms and literals as bindings make them.
ghost use Rattle.std.specs.Prelude.{◌≡◌, IfOk};
ghost use Rattle.scasp_syntax.specs.Instances.{atom_under};
ghost use Rattle.scasp_syntax.specs.Values.{all_under, under};
ghost use Rattle.scasp_syntax.specs.View.{tm_of};
ghost use Rattle.scasp_unify.specs.Solving.{sub_of};
ghost use Rattle.scasp_search_rules.specs.Successors.Reading.{term_under};
ghost use Rattle.scasp_search_rules.specs.Successors.Numbering.{lit_renamed};

use scasp_list::Memory;
use scasp_syntax::{Atom, Lit, Term, Terms};
use scasp_unify::{Binding, resolve, resolve_terms};
use std::alloc::Global;

/// The term as the bindings make it, of which each may speak of variables that later ones bind.
pub fn read(alloc: Global, term: &Term, bindings: &[Binding]) -> Result<Term, Memory>
    ensures { IfOk result (λ made. tm_of made ≡ under (sub_of bindings.now) (tm_of term.now)) }
{
    resolve(alloc, term, bindings)
}

/// The terms as the bindings make them.
pub fn read_terms(alloc: Global, terms: &Terms, bindings: &[Binding]) -> Result<Terms, Memory>
    ensures { IfOk result (λ made. made ≡ all_under (sub_of bindings.now) terms.now) }
{
    resolve_terms(alloc, terms, bindings)
}

/// The term as the bindings make it, which is one term.
pub fn read_term(alloc: Global, term: &Term, bindings: &[Binding]) -> Result<Term, Memory>
    ensures { IfOk result (λ made. made ≡ term_under (sub_of bindings.now) term.now) }
{
    read(alloc, term, bindings)
}

/// The atom as the bindings make it.
pub fn read_atom(alloc: Global, atom: &Atom, bindings: &[Binding]) -> Result<Atom, Memory>
    ensures { IfOk result (λ made. made ≡ atom_under (sub_of bindings.now) atom.now) }
{
    Ok(Atom {
        minus: atom.minus,
        name: atom.name,
        args: read_terms(alloc, &atom.args, bindings)?,
    })
}

/// The literal as the bindings make it.
pub fn read_lit(alloc: Global, lit: &Lit, bindings: &[Binding]) -> Result<Lit, Memory>
    ensures { IfOk result (λ made. made ≡ lit_renamed (sub_of bindings.now) lit.now) }
{
    Ok(Lit {
        positive: lit.positive,
        atom: read_atom(alloc, &lit.atom, bindings)?,
    })
}
