//! Negations and simple forms of constraints, and constraints that hold always.
ghost use Rattle.std.specs.Prelude.{◌≡◌, ◌+◌, ◌<◌, ◌^◌, map, is_none, IfOk, Some};
ghost use Rattle.scasp_syntax.specs.Tm.{app, cons, nil};
ghost use Rattle.scasp_syntax.specs.View.{tm_of};
ghost use Rattle.scasp_unify.specs.Negations.{negated, new_parts};
ghost use Rattle.scasp_unify.specs.Parts.{left_side, parts, right_side};
ghost use Rattle.scasp_unify.specs.SimpleForm.{by_parts, differ, list_term, one_part, simple, term_with};
ghost use Rattle.scasp_unify.specs.Solving.{part_of, sub_of};
ghost use Rattle.scasp_search_terms.specs.Sides.{side_of};
ghost use Rattle.scasp_search_rules.specs.Successors.Reading.{con_under, constant_holds, holds_always};

use crate::constraints::{not_shaped, read_con};
use crate::reading::{read, read_term};
use scasp_list::Memory;
use scasp_name::{NIL, NameId, PAIR};
use scasp_num::Row;
use scasp_syntax::{Con, Term, Terms, copy, same};
use scasp_unify::{Binding, Part, resolved_sides};
use std::alloc::Global;

// ---- negations

/// So many variables, from `first` on.
pub fn new_parts(alloc: Global, first: u64, count: u64) -> Result<Terms, Memory>
    requires { first + count < 2 ^ 64 }
    ensures { IfOk result (λ made. made ≡ new_parts first count) }
{
    let mut made = Terms::new(alloc);
    for place in 0..count {
        made.push(Term::Var(first + place))?;
    }
    Ok(made)
}

/// So many variables, from `first` on; where their numbers pass 64 bits there is no memory for them.
pub fn numbered_parts(alloc: Global, first: u64, count: u64) -> Result<Terms, Memory>
    ensures { IfOk result (λ made. made ≡ new_parts first count) }
{
    if count > u64::MAX - first {
        return Err(Memory);
    }
    new_parts(alloc, first, count)
}

/// The negation of a constraint, where the variables from `first` on are new.
pub fn negated(alloc: Global, first: u64, constraint: &Con) -> Result<Con, Memory>
    ensures { IfOk result (λ made. made ≡ negated first constraint.now) }
{
    match constraint {
        Con::Eq(left, right) => Ok(Con::Neq(copy(alloc, left)?, copy(alloc, right)?)),
        Con::Neq(left, right) => Ok(Con::Eq(copy(alloc, left)?, copy(alloc, right)?)),
        Con::NotShape(x, name, arity) => Ok(Con::Eq(
            Term::Var(*x),
            Term::App(*name, numbered_parts(alloc, first, *arity)?),
        )),
        Con::Num(term) => Ok(Con::NotNum(copy(alloc, term)?)),
        Con::NotNum(term) => Ok(Con::Num(copy(alloc, term)?)),
        Con::Row(row) => Ok(Con::Row(row.negate()?)),
    }
}

// ---- simple forms

/// The left or the right side of a part.
fn side(alloc: Global, part: &Part, is_left: bool) -> Result<Term, Memory>
    ensures made { IfOk result (λ made. made ≡ term_with (side_of is_left (part_of part.now))) }
    ensures term { IfOk result (λ made. tm_of made ≡ side_of is_left (part_of part.now)) }
{
    if part.turned == is_left {
        copy(alloc, &part.term)
    } else {
        Ok(Term::Var(part.at))
    }
}

/// The list of a term and the terms of a list.
fn list_of(alloc: Global, first: Term, rest: Term) -> Result<Term, Memory>
    ensures { IfOk result (λ made. tm_of made ≡ app 1 (cons (tm_of first) (cons (tm_of rest) nil))) }
{
    let mut both = Terms::new(alloc);
    both.push(first)?;
    both.push(rest)?;
    Ok(Term::App(PAIR, both))
}

/// The list of the left or of the right sides of parts.
fn sides(alloc: Global, parts: &[Part], is_left: bool) -> Result<Term, Memory>
    ensures { IfOk result (λ made. tm_of made ≡ list_term (map (side_of is_left) (map part_of parts.now))) }
{
    let mut place = parts.len();
    let mut made = Term::App(NIL, Terms::new(alloc));
    while place > 0 {
        place -= 1;
        made = list_of(alloc, side(alloc, &parts[place], is_left)?, made)?;
    }
    Ok(made)
}

/// The disequation of a part; a variable against a name is an excluded shape.
fn one_part(alloc: Global, part: &Part) -> Result<Con, Memory>
    ensures { IfOk result (λ made. made ≡ one_part (part_of part.now) (part_of part.now).term) }
{
    if let Term::App(name, args) = &part.term {
        if args.len() == 0 {
            return Ok(Con::NotShape(part.at, *name, 0));
        }
    }
    Ok(Con::Neq(side(alloc, part, true)?, side(alloc, part, false)?))
}

/// The disequation of these parts, of which there is none or more than one.
fn several_parts(alloc: Global, parts: &[Part]) -> Result<Con, Memory>
    ensures { IfOk result (λ made. made ≡ differ (list_term (map left_side (map part_of parts.now))) (list_term (map right_side (map part_of parts.now)))) }
{
    Ok(Con::Neq(sides(alloc, parts, true)?, sides(alloc, parts, false)?))
}

/// The disequation by its parts, and as it stands where there is none.
fn by_parts(alloc: Global, whole: Con, parts: &[Part]) -> Result<Con, Memory>
    ensures { IfOk result (λ made. made ≡ by_parts whole (Some (map part_of parts.now))) }
{
    let Some((first, rest)) = parts.split_first() else {
        return Ok(whole);
    };
    if rest.is_empty() {
        one_part(alloc, first)
    } else {
        several_parts(alloc, parts)
    }
}

// ---- constraints that hold always

fn row_holds(row: &Row) -> bool
    ensures { result ≡ constant_holds row.now.coeffs row.now }
{
    row.coeffs().len() == 0 && row.op().compares(row.constant())
}

/// Whether no values make the terms equal.
#[tactic(auto, using(crate::proofs::FormLemmas::read_parts))]
fn are_apart(alloc: Global, left: &Term, right: &Term) -> Result<bool, Memory>
    ensures { IfOk result (λ apart. apart ≡ is_none (parts (tm_of left.now) (tm_of right.now))) }
{
    match resolved_sides(alloc, left, right, &[])? {
        Some(_) => Ok(false),
        None => Ok(true),
    }
}

/// Whether the constraint holds whatever its variables stand for.
pub fn holds_always(alloc: Global, constraint: &Con) -> Result<bool, Memory>
    ensures { IfOk result (λ holds. holds ≡ holds_always constraint.now) }
{
    match constraint {
        Con::Eq(left, right) => same(alloc, left, right),
        Con::Neq(left, right) => are_apart(alloc, left, right),
        Con::NotShape(_, _, _) => Ok(false),
        Con::Num(term) => match term {
            Term::Num(_) => Ok(true),
            Term::Var(_) | Term::App(_, _) => Ok(false),
        },
        Con::NotNum(term) => match term {
            Term::App(_, _) => Ok(true),
            Term::Var(_) | Term::Num(_) => Ok(false),
        },
        Con::Row(row) => Ok(row_holds(row)),
    }
}

// ---- constraints as they read

/// An excluded shape as the bindings make it, which is in simple form.
#[tactic(auto, using(crate::proofs::FormLemmas::shape_simple))]
fn read_shape(
    alloc: Global,
    x: u64,
    name: NameId,
    arity: u64,
    bindings: &[Binding],
) -> Result<Con, Memory>
    ensures { IfOk result (λ made. made ≡ simple (con_under (sub_of bindings.now) (Con.NotShape x name arity))) }
{
    not_shaped(alloc, &read(alloc, &Term::Var(x), bindings)?, name, arity)
}

/// The disequation of two terms, as the bindings make them, in simple form.
fn read_apart(alloc: Global, left: &Term, right: &Term, bindings: &[Binding]) -> Result<Con, Memory>
    ensures { IfOk result (λ made. made ≡ simple (con_under (sub_of bindings.now) (Con.Neq left.now right.now))) }
{
    let whole = Con::Neq(
        read_term(alloc, left, bindings)?,
        read_term(alloc, right, bindings)?,
    );
    match resolved_sides(alloc, left, right, bindings)? {
        Some(parts) => by_parts(alloc, whole, parts.as_slice()),
        None => Ok(whole),
    }
}

/// The constraint as the bindings make it, in simple form.
pub fn read_simple(alloc: Global, constraint: &Con, bindings: &[Binding]) -> Result<Con, Memory>
    ensures { IfOk result (λ made. made ≡ simple (con_under (sub_of bindings.now) constraint.now)) }
{
    match constraint {
        Con::Neq(left, right) => read_apart(alloc, left, right, bindings),
        Con::NotShape(x, name, arity) => read_shape(alloc, *x, *name, *arity, bindings),
        Con::Eq(_, _) | Con::Num(_) | Con::NotNum(_) | Con::Row(_) => {
            read_con(alloc, constraint, bindings)
        }
    }
}
