//! What is known behind a change of the bindings.
ghost use Rattle.std.specs.Prelude.{◌≡◌, ◌++◌, [], ◌∷◌, IfOk, List, OnOk, false, length, map, true};
ghost use Rattle.scasp_bound.specs.Bounds.{unbound};
ghost use Rattle.scasp_law_parts.specs.Bound.{Triangular};
ghost use Rattle.scasp_store.specs.Inside.Behind.{AreCompared, IsPushed};
ghost use Rattle.scasp_store.specs.Inside.Open.{GoodOf, IsNew, KnownOf, SameMarks};
ghost use Rattle.scasp_syntax.specs.Constraints.{is_number};
ghost use Rattle.scasp_syntax.specs.View.{tm_of};
ghost use Rattle.scasp_syntax.specs.declared.con.Con.{Con as ThisCon};
ghost use Rattle.scasp_unify.specs.declared.bindings.Binding.{Binding as ThisBinding};

use crate::opening::{clear, is_new, open_all, takes_out};
use crate::rest::{Known, Rest};
use scasp_bound::Bound;
use scasp_list::Memory;
use scasp_search_terms::forms::holds_always;
use scasp_syntax::{Con, DeepCopy, Term, VarList};
use scasp_unify::Binding;
use std::alloc::Global;

// ---- the bindings alone

/// The variables of the bindings.
fn bound_vars(alloc: Global, bindings: &[Binding]) -> Result<VarList, Memory>
    ensures { IfOk result (λ xs. xs ≡ map (λ (b : ThisBinding). b.x) bindings.now) }
{
    let mut xs = VarList::new(alloc);
    for binding in bindings {
        xs.push(binding.x)?;
    }
    Ok(xs)
}

/// Takes all bindings out.
#[tactic(auto, using(crate::proofs::BehindLemmas::none_left))]
fn take_all(alloc: Global, reading: &mut Bound) -> Result<(), Memory>
    ensures now { OnOk result (reading.new.now ≡ []) }
    ensures before { reading.new.before ≡ reading.old.before }
{
    let bindings = reading.bindings(alloc)?;
    let xs = bound_vars(alloc, bindings.as_slice())?;
    reading.end_case(xs.as_slice(), &[])?;
    Ok(())
}

/// Puts copies of the bindings behind the others.
fn push_all(alloc: Global, bindings: &[Binding], reading: &mut Bound) -> Result<(), Memory>
    ensures now { OnOk result (reading.new.now ≡ reading.old.now ++ bindings.now) }
    ensures before { reading.new.before ≡ reading.old.before }
{
    for binding in bindings {
        reading.push(Binding {
            x: binding.x,
            term: binding.term.copy(alloc)?,
        })?;
    }
    Ok(())
}

/// The constraints, of which there are so many, are read by the bindings alone from now on, and all of them are open.
#[tactic(auto, using(crate::proofs::BehindLemmas::good_alone))]
pub(crate) fn renew(
    alloc: Global,
    bound: &Bound,
    count: usize,
    rest: &mut Rest,
) -> Result<(), Memory>
    ensures good { OnOk result ((cs : List ThisCon) → length cs ≡ count → Triangular bound.now.now → GoodOf bound.now.now cs rest.new) }
    ensures marks { SameMarks rest.old rest.new }
{
    take_all(alloc, &mut rest.reading)?;
    let bindings = bound.bindings(alloc)?;
    push_all(alloc, bindings.as_slice(), &mut rest.reading)?;
    clear(&mut rest.fixed)?;
    open_all(&mut rest.places, count)?;
    Ok(())
}

// ---- one binding more

fn is_number(term: &Term) -> bool
    ensures { result ≡ is_number (tm_of term.now) }
{
    match term {
        Term::Num(_) => true,
        Term::Var(_) | Term::App(_, _) => false,
    }
}

/// How a number compares with a term: they are the same, or never the same. Of any other term nothing is known.
fn compared(alloc: Global, left: Term, right: Term) -> Result<Known, Memory>
    ensures { IfOk result (λ known. AreCompared known left right) }
{
    if !is_number(&left) {
        return Ok(Known::Nothing);
    }
    let apart = Con::Neq(left.copy(alloc)?, right.copy(alloc)?);
    if holds_always(alloc, &apart)? {
        return Ok(Known::Contrary);
    }
    if holds_always(alloc, &Con::Eq(left, right))? {
        return Ok(Known::Read);
    }
    Ok(Known::Nothing)
}

/// The variable of the binding is read as its term from now on, unless it is read otherwise before.
fn push_read(alloc: Global, binding: Binding, rest: &mut Rest) -> Result<Known, Memory>
    ensures known { IfOk result (λ known. IsPushed known binding rest.old rest.new) }
    ensures marks { SameMarks rest.old rest.new }
{
    if !is_new(alloc, &rest.reading, &binding)? {
        return Ok(Known::Nothing);
    }
    rest.reading.push(binding)?;
    Ok(Known::Read)
}

/// What is known behind one more binding, where numbers are left to variables.
#[tactic(auto, using(crate::proofs::BehindLemmas::known_compared, crate::proofs::BehindLemmas::known_pushed))]
fn read_fixed(alloc: Global, binding: &Binding, rest: &mut Rest) -> Result<Known, Memory>
    requires { rest.old.fixed.now ≡ [] → ⊥ }
    ensures known { IfOk result (λ known. (bs : List ThisBinding) (cs : List ThisCon) → IsNew bs binding.now → GoodOf bs cs rest.old → KnownOf true known (bs ++ binding.now ∷ []) cs rest.new) }
    ensures marks { SameMarks rest.old rest.new }
{
    let right = rest.reading.read(alloc, &binding.term)?;
    let left = rest.reading.read(alloc, &Term::Var(binding.x))?;
    if is_number(&left) {
        let known = compared(alloc, left, right)?;
        return Ok(known);
    }
    let read = Binding {
        x: binding.x,
        term: right,
    };
    let known = push_read(alloc, read, rest)?;
    Ok(known)
}

/// What is known behind one more binding.
#[tactic(auto, using(crate::proofs::BehindLemmas::known_plain, crate::proofs::BehindLemmas::nothing_in))]
fn read_more(alloc: Global, binding: &Binding, rest: &mut Rest) -> Result<Known, Memory>
    ensures known { IfOk result (λ known. (bs : List ThisBinding) (cs : List ThisCon) → IsNew bs binding.now → GoodOf bs cs rest.old → KnownOf true known (bs ++ binding.now ∷ []) cs rest.new) }
    ensures marks { SameMarks rest.old rest.new }
{
    if rest.fixed.len() != 0 {
        let known = read_fixed(alloc, binding, rest)?;
        return Ok(known);
    }
    rest.reading.push(Binding {
        x: binding.x,
        term: binding.term.copy(alloc)?,
    })?;
    Ok(Known::Read)
}

/// One more binding of an unbound variable, where it is known what the constraints, so many, are read by.
fn bind_read(
    alloc: Global,
    bound: &mut Bound,
    count: usize,
    rest: &mut Rest,
    binding: Binding,
) -> Result<Known, Memory>
    ensures now { OnOk result (bound.new.now ≡ bound.old.now ++ binding ∷ []) }
    ensures known { IfOk result (λ known. (cs : List ThisCon) → length cs ≡ count → IsNew bound.old.now binding → GoodOf bound.old.now cs rest.old → KnownOf true known bound.new.now cs rest.new) }
    ensures before { bound.new.before ≡ bound.old.before }
    ensures marks { SameMarks rest.old rest.new }
{
    let known = read_more(alloc, &binding, rest)?;
    bound.push(binding)?;
    match known {
        Known::Read | Known::Contrary => Ok(known),
        Known::Nothing => {
            renew(alloc, bound, count, rest)?;
            Ok(Known::Read)
        }
    }
}

/// What is known behind one more binding of an unbound variable. There are so many constraints.
#[tactic(auto, using(crate::proofs::BehindLemmas::contrary_more))]
pub(crate) fn bind(
    alloc: Global,
    was: Known,
    bound: &mut Bound,
    count: usize,
    rest: &mut Rest,
    binding: Binding,
) -> Result<Known, Memory>
    ensures now { OnOk result (bound.new.now ≡ bound.old.now ++ binding ∷ []) }
    ensures known { IfOk result (λ known. (cs : List ThisCon) → length cs ≡ count → IsNew bound.old.now binding → KnownOf true was bound.old.now cs rest.old → KnownOf true known bound.new.now cs rest.new) }
    ensures before { bound.new.before ≡ bound.old.before }
    ensures marks { SameMarks rest.old rest.new }
{
    match was {
        Known::Read => bind_read(alloc, bound, count, rest, binding),
        Known::Contrary | Known::Nothing => {
            bound.push(binding)?;
            Ok(was)
        }
    }
}

// ---- bindings taken out

/// Variables whose bindings are taken out, but for some of them.
#[derive(Clone, Copy)]
pub(crate) struct Taken<'a> {
    pub(crate) universals: &'a [u64],
    pub(crate) but: &'a [u64],
}

/// Takes the bindings of the variables of a list out, but for those that are also in another one. All of so many
/// constraints are open again, and read by the bindings that are left, unless there is no such binding.
pub(crate) fn take_out(
    alloc: Global,
    bound: &mut Bound,
    count: usize,
    rest: &mut Rest,
    xs: &[u64],
    but: &[u64],
) -> Result<(), Memory>
    ensures now { OnOk result (bound.new.now ≡ unbound xs.now but.now bound.old.now) }
    ensures good { OnOk result ((cs : List ThisCon) → length cs ≡ count → GoodOf bound.old.now cs rest.old → GoodOf bound.new.now cs rest.new) }
    ensures before { bound.new.before ≡ bound.old.before }
    ensures marks { SameMarks rest.old rest.new }
{
    let is_less = takes_out(bound, xs, but);
    bound.end_case(xs, but)?;
    if !is_less {
        return Ok(());
    }
    if rest.fixed.len() != 0 {
        return renew(alloc, bound, count, rest);
    }
    rest.reading.end_case(xs, but)?;
    open_all(&mut rest.places, count)
}

/// What is known where these bindings are taken out.
pub(crate) fn end_case(
    alloc: Global,
    was: Known,
    bound: &mut Bound,
    count: usize,
    rest: &mut Rest,
    taken: Taken<'_>,
) -> Result<Known, Memory>
    ensures now { OnOk result (bound.new.now ≡ unbound taken.entry.universals.now taken.entry.but.now bound.old.now) }
    ensures known { IfOk result (λ known. (cs : List ThisCon) → length cs ≡ count → KnownOf true was bound.old.now cs rest.old → KnownOf true known bound.new.now cs rest.new) }
    ensures before { bound.new.before ≡ bound.old.before }
    ensures marks { SameMarks rest.old rest.new }
{
    match was {
        Known::Read => {
            take_out(alloc, bound, count, rest, taken.universals, taken.but)?;
            Ok(Known::Read)
        }
        Known::Contrary => {
            bound.end_case(taken.universals, taken.but)?;
            renew(alloc, bound, count, rest)?;
            Ok(Known::Read)
        }
        Known::Nothing => {
            bound.end_case(taken.universals, taken.but)?;
            Ok(Known::Nothing)
        }
    }
}
