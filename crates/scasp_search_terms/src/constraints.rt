//! Constraints as bindings make them.
ghost use Rattle.std.specs.Prelude.{◌≡◌, ◌++◌, IfOk, OnOk};
ghost use Rattle.std.specs.List.{flat_map};
ghost use Rattle.scasp_syntax.specs.Values.{under};
ghost use Rattle.scasp_syntax.specs.View.{tm_of};
ghost use Rattle.scasp_unify.specs.Solving.{sub_of};
ghost use Rattle.scasp_unify.specs.Unification.{term_vars, terms_vars};
ghost use Rattle.scasp_search_rules.specs.Successors.Reading.{con_under, con_vars, not_shaped, row_under};

use crate::reading::{read, read_term};
use scasp_list::Memory;
use scasp_name::NameId;
use scasp_num::{Coeff, Row, RowErr};
use scasp_syntax::{Con, DeepCopy, Term, Terms, VarList, Walk};
use scasp_unify::{Binding, resolved_row};
use std::alloc::Global;

// ---- variables

/// Puts the variables of a term behind those found before, each as often as it stands there. It takes memory for the lists of
/// terms that wait, and no machine stack.
pub fn push_vars(term: &Term, found: &mut VarList) -> Result<(), Memory>
    ensures { OnOk result (found.new ≡ found.old ++ term_vars (tm_of term.now)) }
{
    match term {
        Term::Var(x) => found.push(*x),
        Term::Num(_) => Ok(()),
        Term::App(_, args) => push_all_vars(args, found),
    }
}

/// Puts the variables of terms behind those found before, with memory as `push_vars`.
#[tactic(auto, using(crate::proofs::VarLemmas::var_found, crate::proofs::VarLemmas::num_passed, crate::proofs::VarLemmas::name_passed, crate::proofs::VarLemmas::args_next, crate::proofs::VarLemmas::none_left, crate::proofs::VarLemmas::less_one, crate::proofs::VarLemmas::less_args))]
pub fn push_all_vars(terms: &Terms, found: &mut VarList) -> Result<(), Memory>
    ensures { OnOk result (found.new ≡ found.old ++ terms_vars terms.now) }
{
    let mut walk = Walk::over(found.allocator(), terms.as_slice());
    'terms: while let Some(term) = walk.next() {
        match term {
            Term::Var(x) => {
                found.push(*x)?;
            }
            Term::Num(_) => {}
            Term::App(_, args) => {
                if args.len() > 0 {
                    walk.enter(args)?;
                }
            }
        }
    }
    Ok(())
}

/// Puts the variables of a term, as the bindings make it, behind those found before.
fn push_read_vars(
    alloc: Global,
    term: &Term,
    bindings: &[Binding],
    found: &mut VarList,
) -> Result<(), Memory>
    ensures { OnOk result (found.new ≡ found.old ++ term_vars (under (sub_of bindings.now) (tm_of term.now))) }
{
    push_vars(&read(alloc, term, bindings)?, found)
}

/// Puts the variables of a row, as the bindings make them, behind those found before.
fn push_row_vars(
    alloc: Global,
    coeffs: &[Coeff],
    bindings: &[Binding],
    found: &mut VarList,
) -> Result<(), Memory>
    ensures { OnOk result (found.new ≡ found.old ++ flat_map (λ k. term_vars (sub_of bindings.now k.x)) coeffs.now) }
{
    for coeff in coeffs {
        push_read_vars(alloc, &Term::Var(coeff.x), bindings, found)?;
    }
    Ok(())
}

/// The variables of the constraint, as the bindings make it, each as often as it stands there.
pub fn con_vars(alloc: Global, constraint: &Con, bindings: &[Binding]) -> Result<VarList, Memory>
    ensures { IfOk result (λ found. found ≡ con_vars (sub_of bindings.now) constraint.now) }
{
    let mut found = VarList::new(alloc);
    match constraint {
        Con::Eq(left, right) | Con::Neq(left, right) => {
            push_read_vars(alloc, left, bindings, &mut found)?;
            push_read_vars(alloc, right, bindings, &mut found)?;
        }
        Con::NotShape(x, _, _) => push_read_vars(alloc, &Term::Var(*x), bindings, &mut found)?,
        Con::Num(term) | Con::NotNum(term) => push_read_vars(alloc, term, bindings, &mut found)?,
        Con::Row(row) => push_row_vars(alloc, row.coeffs().as_slice(), bindings, &mut found)?,
    }
    Ok(found)
}

// ---- constraints

/// Not of this shape; a term that is no variable has a shape by itself.
pub fn not_shaped(alloc: Global, term: &Term, name: NameId, arity: u64) -> Result<Con, Memory>
    ensures { IfOk result (λ made. made ≡ not_shaped (tm_of term.now) name arity) }
{
    match term {
        Term::Var(x) => Ok(Con::NotShape(*x, name, arity)),
        Term::Num(value) => Ok(Con::Eq(Term::Num(*value), Term::Num(*value))),
        Term::App(shape, args) => {
            let left = term.copy(alloc)?;
            let right = term.copy(alloc)?;
            if *shape == name && args.len() as u64 == arity {
                Ok(Con::Neq(left, right))
            } else {
                Ok(Con::Eq(left, right))
            }
        }
    }
}

/// The row as the bindings make it, and as it stands where a replacement overflows.
fn read_row(alloc: Global, row: &Row, bindings: &[Binding]) -> Result<Row, Memory>
    ensures { IfOk result (λ made. made ≡ row_under (sub_of bindings.now) row.now) }
{
    match resolved_row(alloc, row, bindings) {
        Ok(resolved) => Ok(resolved),
        Err(RowErr::Overflow) => Ok(row.clone()?),
        Err(RowErr::Memory) => Err(Memory),
    }
}

/// The constraint as the bindings make it.
pub fn read_con(alloc: Global, constraint: &Con, bindings: &[Binding]) -> Result<Con, Memory>
    ensures { IfOk result (λ made. made ≡ con_under (sub_of bindings.now) constraint.now) }
{
    match constraint {
        Con::Eq(left, right) => Ok(Con::Eq(
            read_term(alloc, left, bindings)?,
            read_term(alloc, right, bindings)?,
        )),
        Con::Neq(left, right) => Ok(Con::Neq(
            read_term(alloc, left, bindings)?,
            read_term(alloc, right, bindings)?,
        )),
        Con::NotShape(x, name, arity) => {
            not_shaped(
                alloc,
                &read(alloc, &Term::Var(*x), bindings)?,
                *name,
                *arity,
            )
        }
        Con::Num(term) => Ok(Con::Num(read_term(alloc, term, bindings)?)),
        Con::NotNum(term) => Ok(Con::NotNum(read_term(alloc, term, bindings)?)),
        Con::Row(row) => Ok(Con::Row(read_row(alloc, row, bindings)?)),
    }
}
