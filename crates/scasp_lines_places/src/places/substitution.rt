//! Terms and atoms with their variables replaced.
ghost use Rattle.std.specs.Prelude.{◌≡◌, ℕ, IfOk, option_copied, option_map};
ghost use Rattle.scasp_lines.specs.Openings.{bound_to};
ghost use Rattle.scasp_lines.specs.Sides.{replacing};
ghost use Rattle.scasp_lines_places.specs.Places.Substitutions.{here_of, values_of};
ghost use Rattle.scasp_lines_places.specs.Places.View.{all_bound, all_replaced};
ghost use Rattle.scasp_syntax.specs.Instances.{atom_under};
ghost use Rattle.scasp_syntax.specs.Tm.{Tm};
ghost use Rattle.scasp_syntax.specs.Values.{all_under, under};
ghost use Rattle.scasp_syntax.specs.View.{tm_of};

use crate::places::chain::Chain;
use scasp_list::Memory;
use scasp_syntax::{Atom, Term, Terms, Values, copy, instance, rebuilt};
use scasp_unify::Binding;
use std::alloc::Global;

/// A term for each variable.
pub trait Substitution {
    ghost gives: { Self → ℕ → Tm };

    /// What the variable stands for.
    fn value(&self, alloc: Global, x: u64) -> Result<Term, Memory>
        ensures { IfOk result (λ made. tm_of made ≡ gives self.now x) };
}

/// What variables stand for by a substitution.
#[derive(Drop)]
struct By<'a, S> {
    by: &'a S,
}

impl<S: Substitution> Values for By<'_, S> {
    ghost gives = { λ b. S.gives b.by.now };

    fn value_of(&self, alloc: Global, x: u64) -> Result<Term, Memory> {
        self.by.value(alloc, x)
    }
}

/// The term with its variables replaced. It takes memory for what is still to be made, and no machine stack.
pub fn under<S: Substitution>(alloc: Global, term: &Term, by: &S) -> Result<Term, Memory>
    ensures { IfOk result (λ made. tm_of made ≡ under (S.gives by.now) (tm_of term.now)) }
{
    match term {
        Term::Var(x) => by.value(alloc, *x),
        Term::Num(value) => Ok(Term::Num(*value)),
        Term::App(name, args) => Ok(Term::App(*name, all_under(alloc, args, by)?)),
    }
}

/// The terms with their variables replaced, with memory as `under`.
pub fn all_under<S: Substitution>(alloc: Global, terms: &Terms, by: &S) -> Result<Terms, Memory>
    ensures { IfOk result (λ made. made ≡ all_under (S.gives by.now) terms.now) }
{
    rebuilt(alloc, terms.as_slice(), &By { by })
}

/// The atom with its variables replaced.
pub fn atom_under<S: Substitution>(alloc: Global, atom: &Atom, by: &S) -> Result<Atom, Memory>
    ensures { IfOk result (λ made. made ≡ atom_under (S.gives by.now) atom.now) }
{
    Ok(Atom {
        minus: atom.minus,
        name: atom.name,
        args: all_under(alloc, &atom.args, by)?,
    })
}

/// One variable replaced by a term.
#[derive(Drop)]
struct Replacing<'a> {
    x: u64,
    term: &'a Term,
}

impl Substitution for Replacing<'_> {
    ghost gives = { λ r. replacing r.x (tm_of r.term.now) };

    fn value(&self, alloc: Global, x: u64) -> Result<Term, Memory> {
        if x == self.x {
            copy(alloc, self.term)
        } else {
            Ok(Term::Var(x))
        }
    }
}

/// What a variable is replaced by: the outermost replacement first. It takes memory for the replacements where one is of this
/// variable, and no machine stack.
#[tactic(auto, using(crate::proofs::PlacesLemmas::ReplacedLemmas::unreplaced))]
pub fn replaced_value(alloc: Global, all: &Chain<Binding>, x: u64) -> Result<Term, Memory>
    ensures { IfOk result (λ made. tm_of made ≡ all_replaced all.now x) }
{
    match bound_to(all, x) {
        None => Ok(Term::Var(x)),
        Some(_) => replaced_by_each(alloc, all, x),
    }
}

/// What a variable is replaced by, one replacement after the other.
#[tactic(auto, using(crate::proofs::PlacesLemmas::ReplacedLemmas::all_left, crate::proofs::PlacesLemmas::ReplacedLemmas::one_less))]
fn replaced_by_each(alloc: Global, all: &Chain<Binding>, x: u64) -> Result<Term, Memory>
    ensures { IfOk result (λ made. tm_of made ≡ all_replaced all.now x) }
{
    let mut left = all.items(alloc)?;
    let mut value = Term::Var(x);
    while let Some(binding) = left.pop() {
        let by = Replacing {
            x: binding.x,
            term: &binding.term,
        };
        value = under(alloc, &value, &by)?;
    }
    Ok(value)
}

/// What is replaced, as a substitution.
#[derive(Drop)]
pub struct Replaced<'a> {
    pub all: &'a Chain<Binding>,
}

impl Substitution for Replaced<'_> {
    ghost gives = { λ r. all_replaced r.all.now };

    fn value(&self, alloc: Global, x: u64) -> Result<Term, Memory> {
        replaced_value(alloc, self.all, x)
    }
}

/// The term that is bound to the variable, if there is one.
pub fn bound_to(bound: &Chain<Binding>, x: u64) -> Option<&Term>
    ensures { option_map tm_of (option_copied result) ≡ bound_to (all_bound bound.now) x }
{
    let mut rest = bound;
    while let Some((binding, outer)) = rest.first() {
        if binding.x == x {
            return Some(&binding.term);
        }
        rest = outer;
    }
    None
}

/// What the variables of a clause stand for.
#[derive(Drop)]
pub enum ClauseValues<'a> {
    /// Variable x stands for the term at place x.
    Listed(&'a Terms),
    /// A variable stands for what is bound to it, and for itself where nothing is.
    Bound(&'a Chain<Binding>),
}

impl Substitution for ClauseValues<'_> {
    ghost gives = { values_of };

    fn value(&self, alloc: Global, x: u64) -> Result<Term, Memory> {
        match self {
            ClauseValues::Listed(terms) => instance(alloc, &Term::Var(x), terms),
            ClauseValues::Bound(bound) => match bound_to(bound, x) {
                Some(term) => copy(alloc, term),
                None => Ok(Term::Var(x)),
            },
        }
    }
}

/// What the variables of a clause stand for at a place, where some are replaced.
#[derive(Drop)]
pub struct ValuesHere<'a> {
    pub values: ClauseValues<'a>,
    pub replaced: &'a Chain<Binding>,
}

impl Substitution for ValuesHere<'_> {
    ghost gives = { here_of };

    fn value(&self, alloc: Global, x: u64) -> Result<Term, Memory> {
        let value = self.values.value(alloc, x)?;
        under(alloc, &value, &Replaced { all: self.replaced })
    }
}
