//! Simple forms of disequations.
ghost use Rattle.std.specs.Prelude.{◌≡◌, Some, map, IfOk};
ghost use Rattle.scasp_syntax.specs.Tm.{app, cons, nil};
ghost use Rattle.scasp_syntax.specs.View.{tm_of};
ghost use Rattle.scasp_unify.specs.Parts.{left_side, right_side};
ghost use Rattle.scasp_unify.specs.SimpleForm.{differ, by_parts, list_term, one_part, simple};
ghost use Rattle.scasp_unify.specs.Solving.{part_of};
ghost use Rattle.scasp_syntax.specs.declared.con.Con.TheVariants as con;

use scasp_list::Memory;
use scasp_name::{NIL, PAIR};
use scasp_syntax::{Con, Term, Terms, copy};
use scasp_unify::{Part, resolved_sides};
use std::alloc::Global;

/// The left side of the part.
fn left_side(alloc: Global, part: &Part) -> Result<Term, Memory>
    ensures { IfOk result (λ made. tm_of made ≡ left_side (part_of part.now)) }
{
    if part.turned {
        copy(alloc, &part.term)
    } else {
        Ok(Term::Var(part.at))
    }
}

/// The right side of the part.
fn right_side(alloc: Global, part: &Part) -> Result<Term, Memory>
    ensures { IfOk result (λ made. tm_of made ≡ right_side (part_of part.now)) }
{
    if part.turned {
        Ok(Term::Var(part.at))
    } else {
        copy(alloc, &part.term)
    }
}

/// The list with this first element and this rest.
fn pair(alloc: Global, first: Term, rest: Term) -> Result<Term, Memory>
    ensures { IfOk result (λ made. tm_of made ≡ app 1 (cons (tm_of first) (cons (tm_of rest) nil))) }
{
    let mut args = Terms::new(alloc);
    args.push(first)?;
    args.push(rest)?;
    Ok(Term::App(PAIR, args))
}

/// The list of the left sides, and that of the right sides.
fn side_lists(alloc: Global, parts: &[Part]) -> Result<(Term, Term), Memory>
    ensures left { IfOk result (λ made. tm_of made.0 ≡ list_term (map left_side (map part_of parts.now))) }
    ensures right { IfOk result (λ made. tm_of made.1 ≡ list_term (map right_side (map part_of parts.now))) }
{
    let mut left = Term::App(NIL, Terms::new(alloc));
    let mut right = Term::App(NIL, Terms::new(alloc));
    let mut place = parts.len();
    while place > 0 {
        place -= 1;
        left = pair(alloc, left_side(alloc, &parts[place])?, left)?;
        right = pair(alloc, right_side(alloc, &parts[place])?, right)?;
    }
    Ok((left, right))
}

/// The simple form of the disequation whose only part this is.
fn one_part(alloc: Global, part: &Part) -> Result<Con, Memory>
    ensures { IfOk result (λ made. made ≡ one_part (part_of part.now) (tm_of part.now.term)) }
{
    match &part.term {
        Term::App(name, args) if args.len() == 0 => Ok(Con::NotShape(part.at, *name, 0)),
        Term::Var(_) | Term::Num(_) | Term::App(_, _) => {
            Ok(Con::Neq(left_side(alloc, part)?, right_side(alloc, part)?))
        }
    }
}

/// The simple form of the disequation of two terms that has these parts.
#[tactic(auto, using(crate::proofs::DuesLemmas::TermLemmas::parts_one, crate::proofs::DuesLemmas::TermLemmas::parts_many, crate::proofs::DuesLemmas::TermLemmas::parts_none, crate::proofs::DuesLemmas::TermLemmas::differ_is))]
fn by_parts(alloc: Global, left: Term, right: Term, parts: &[Part]) -> Result<Con, Memory>
    ensures { IfOk result (λ made. made ≡ by_parts (con.Neq left right) (Some (map part_of parts.now))) }
{
    if parts.len() == 0 {
        return Ok(Con::Neq(left, right));
    }
    if parts.len() == 1 {
        let part = &parts[0];
        return one_part(alloc, part);
    }
    let (first, second) = side_lists(alloc, parts)?;
    Ok(Con::Neq(first, second))
}

/// The simple form of the disequation of two terms: that of their parts.
#[tactic(auto, using(crate::proofs::DuesLemmas::TermLemmas::simple_is))]
pub fn simple_differ(alloc: Global, left: Term, right: Term) -> Result<Con, Memory>
    ensures { IfOk result (λ made. made ≡ simple (differ (tm_of left) (tm_of right))) }
{
    match resolved_sides(alloc, &left, &right, &[])? {
        None => Ok(Con::Neq(left, right)),
        Some(parts) => by_parts(alloc, left, right, parts.as_slice()),
    }
}
