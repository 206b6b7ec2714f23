//! Constraints as bindings read them.
ghost use Rattle.std.specs.Prelude.{◌≡◌, ◌++◌, IfOk, OnOk};
ghost use Rattle.std.specs.List.{flat_map};
ghost use Rattle.scasp_readings.specs.Readings.{reading};
ghost use Rattle.scasp_search_rules.specs.Successors.Assumptions.{as_read};
ghost use Rattle.scasp_search_rules.specs.Successors.Reading.{con_under, con_vars, term_under};
ghost use Rattle.scasp_unify.specs.SimpleForm.{simple};
ghost use Rattle.scasp_unify.specs.Solving.{sub_of};
ghost use Rattle.scasp_unify.specs.Unification.{term_vars};

use crate::rows::read_row;
use scasp_bound::Bound;
use scasp_list::Memory;
use scasp_name::NameId;
use scasp_num::Coeff;
use scasp_search_terms::constraints::not_shaped;
use scasp_search_terms::forms::read_simple as read_by;
use scasp_syntax::{Con, Term, VarList};
use std::alloc::Global;

// ---- variables

/// Puts the variables of a row, as the bindings read them, behind those found before.
fn push_row_vars(
    alloc: Global,
    bound: &Bound,
    coeffs: &[Coeff],
    found: &mut VarList,
) -> Result<(), Memory>
    ensures { OnOk result (found.new ≡ found.old ++ flat_map (λ k. term_vars (sub_of bound.now.now k.x)) coeffs.now) }
{
    for coeff in coeffs {
        bound.push_vars(alloc, &Term::Var(coeff.x), found)?;
    }
    Ok(())
}

/// Puts the variables of the constraint, as the bindings read it, behind those found before, each as often as it stands there.
fn push_con_vars(
    alloc: Global,
    bound: &Bound,
    constraint: &Con,
    found: &mut VarList,
) -> Result<(), Memory>
    ensures { OnOk result (found.new ≡ found.old ++ con_vars (sub_of bound.now.now) constraint.now) }
{
    match constraint {
        Con::Eq(left, right) | Con::Neq(left, right) => {
            bound.push_vars(alloc, left, found)?;
            bound.push_vars(alloc, right, found)
        }
        Con::NotShape(x, _, _) => bound.push_vars(alloc, &Term::Var(*x), found),
        Con::Num(term) | Con::NotNum(term) => bound.push_vars(alloc, term, found),
        Con::Row(row) => push_row_vars(alloc, bound, row.coeffs().as_slice(), found),
    }
}

/// The variables of the constraint, as the bindings read it, each as often as it stands there.
pub fn con_vars(alloc: Global, bound: &Bound, constraint: &Con) -> Result<VarList, Memory>
    ensures { IfOk result (λ found. found ≡ con_vars (sub_of bound.now.now) constraint.now) }
{
    let mut found = VarList::new(alloc);
    push_con_vars(alloc, bound, constraint, &mut found)?;
    Ok(found)
}

// ---- constraints

/// The term as the bindings read it, which is one term.
pub fn read_term(alloc: Global, bound: &Bound, term: &Term) -> Result<Term, Memory>
    ensures { IfOk result (λ made. made ≡ term_under (sub_of bound.now.now) term.now) }
{
    bound.read(alloc, term)
}

/// The constraint as the bindings read it.
pub fn read_con(alloc: Global, bound: &Bound, constraint: &Con) -> Result<Con, Memory>
    ensures { IfOk result (λ made. made ≡ con_under (sub_of bound.now.now) constraint.now) }
{
    match constraint {
        Con::Eq(left, right) => Ok(Con::Eq(
            read_term(alloc, bound, left)?,
            read_term(alloc, bound, right)?,
        )),
        Con::Neq(left, right) => Ok(Con::Neq(
            read_term(alloc, bound, left)?,
            read_term(alloc, bound, right)?,
        )),
        Con::NotShape(x, name, arity) => {
            not_shaped(alloc, &bound.read(alloc, &Term::Var(*x))?, *name, *arity)
        }
        Con::Num(term) => Ok(Con::Num(read_term(alloc, bound, term)?)),
        Con::NotNum(term) => Ok(Con::NotNum(read_term(alloc, bound, term)?)),
        Con::Row(row) => Ok(Con::Row(read_row(alloc, bound, row)?)),
    }
}

/// An excluded shape as the bindings read it, which is in simple form.
#[tactic(auto, using(scasp_search_terms::proofs::FormLemmas::shape_simple))]
fn read_shape(alloc: Global, bound: &Bound, x: u64, name: NameId, arity: u64) -> Result<Con, Memory>
    ensures { IfOk result (λ made. made ≡ simple (con_under (sub_of bound.now.now) (Con.NotShape x name arity))) }
{
    not_shaped(alloc, &bound.read(alloc, &Term::Var(x))?, name, arity)
}

/// The disequation of two terms, as the bindings read them, in simple form.
#[tactic(auto, using(crate::proofs::FormLemmas::as_it_stands))]
fn read_apart(alloc: Global, bound: &Bound, left: &Term, right: &Term) -> Result<Con, Memory>
    ensures { IfOk result (λ made. made ≡ simple (con_under (sub_of bound.now.now) (Con.Neq left.now right.now))) }
{
    let whole = Con::Neq(
        read_term(alloc, bound, left)?,
        read_term(alloc, bound, right)?,
    );
    let made = read_by(alloc, &whole, &[])?;
    Ok(made)
}

/// The constraint as the bindings read it, in simple form.
pub fn read_simple(alloc: Global, bound: &Bound, constraint: &Con) -> Result<Con, Memory>
    ensures { IfOk result (λ made. made ≡ as_read (reading bound.now.now) constraint.now) }
{
    match constraint {
        Con::Neq(left, right) => read_apart(alloc, bound, left, right),
        Con::NotShape(x, name, arity) => read_shape(alloc, bound, *x, *name, *arity),
        Con::Eq(_, _) | Con::Num(_) | Con::NotNum(_) | Con::Row(_) => {
            read_con(alloc, bound, constraint)
        }
    }
}
