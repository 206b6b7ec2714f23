//! The first pair that two terms come to, where they are to be apart.
ghost use Rattle.std.specs.Prelude.{◌≡◌};
ghost use Rattle.scasp_hint.specs.Satisfying.{sat};
ghost use Rattle.scasp_search_rules.specs.Successors.Differences.{differ_number, differ_pair, differ_shape, differ_value, differ_variables, part_of_variables, stands_first};
ghost use Rattle.scasp_search_state.specs.Choices.{Forks};
ghost use Rattle.scasp_syntax.specs.View.{tm_of};
ghost use Rattle.scasp_syntax.specs.declared.program.Program.{Program as ThisProgram};

use crate::alternatives::{at_part, when_apart};
use crate::shapes::occurs_among;
use crate::variables::is_inside;
use scasp_name::NameId;
use scasp_num::Rat;
use scasp_search_constraints::SearchErr;
use scasp_search_rules::{Aim, Pairs, Task, Tasks};
use scasp_search_state::Situation;
use scasp_syntax::{Con, Term, Terms, copy_terms};
use std::alloc::Global;

// ---- two variables

/// Two variables in this order are to be apart, or else the first becomes the second.
fn part_of_variables<M: Situation>(
    alloc: Global,
    at: &mut M,
    x: u64,
    y: u64,
    rest: Pairs,
    aim: Aim,
) -> Result<bool, SearchErr>
    ensures { (p : ThisProgram) → Forks p (part_of_variables sat (M.now at.old) x y rest aim) (M.now at.new) (M.points at.new) (M.points at.old) result }
{
    let same = Task::Become {
        x,
        term: Term::Var(y),
        rest,
        aim,
    };
    let other = Tasks::from(vec![in alloc; same]?);
    at_part(alloc, at, Con::Neq(Term::Var(x), Term::Var(y)), aim, other)
}

/// Whether the first variable stands first: a universal one does, and of two the one of greater depth or the later of
/// one depth.
fn stands_first<M: Situation>(at: &M, x: u64, y: u64) -> bool
    ensures { result ≡ stands_first (M.now at.now) x y }
{
    !at.is_universal(y) || (at.is_universal(x) && is_inside(at, x, y))
}

/// Two variables are to be apart.
fn differ_variables<M: Situation>(
    alloc: Global,
    at: &mut M,
    x: u64,
    y: u64,
    rest: Pairs,
    aim: Aim,
) -> Result<bool, SearchErr>
    ensures { (p : ThisProgram) → Forks p (differ_variables sat (M.now at.old) x y rest aim) (M.now at.new) (M.points at.new) (M.points at.old) result }
{
    if stands_first(at, x, y) {
        part_of_variables(alloc, at, x, y, rest, aim)
    } else {
        part_of_variables(alloc, at, y, x, rest, aim)
    }
}

// ---- a variable and a number

/// The variable is no number, or else it is one, and may differ from this one.
fn differ_number<M: Situation>(
    alloc: Global,
    at: &mut M,
    x: u64,
    value: Rat,
    rest: Pairs,
    aim: Aim,
) -> Result<bool, SearchErr>
    ensures { (p : ThisProgram) → Forks p (differ_number sat (M.now at.old) x value rest aim) (M.now at.new) (M.points at.new) (M.points at.old) result }
{
    let number = Task::Assume(Con::Num(Term::Var(x)));
    let avoid = Task::Avoid {
        x,
        value,
        rest,
        aim,
    };
    let other = Tasks::from(vec![in alloc; number, avoid]?);
    at_part(alloc, at, Con::NotNum(Term::Var(x)), aim, other)
}

/// The variable, a number, is another number, or else it is this one, and other pairs are looked at.
pub fn differ_value<M: Situation>(
    alloc: Global,
    at: &mut M,
    x: u64,
    value: Rat,
    rest: Pairs,
    aim: Aim,
) -> Result<bool, SearchErr>
    ensures { (p : ThisProgram) → Forks p (differ_value sat (M.now at.old) x value rest aim) (M.now at.new) (M.points at.new) (M.points at.old) result }
{
    let same = Task::Become {
        x,
        term: Term::Num(value),
        rest,
        aim,
    };
    let other = Tasks::from(vec![in alloc; same]?);
    at_part(
        alloc,
        at,
        Con::Neq(Term::Var(x), Term::Num(value)),
        aim,
        other,
    )
}

// ---- a variable and a name

/// The variable has another shape, or else it has this one, and some argument may differ.
fn differ_shape<M: Situation>(
    alloc: Global,
    at: &mut M,
    x: u64,
    name: NameId,
    args: &Terms,
    rest: Pairs,
    aim: Aim,
) -> Result<bool, SearchErr>
    ensures { (p : ThisProgram) → Forks p (differ_shape sat (M.now at.old) x name args.now rest aim) (M.now at.new) (M.points at.new) (M.points at.old) result }
{
    if occurs_among(alloc, x, args)? {
        when_apart(at, aim)?;
        return Ok(true);
    }
    let shape = Task::Shape {
        x,
        name,
        args: copy_terms(alloc, args)?,
        rest,
        aim,
    };
    let other = Tasks::from(vec![in alloc; shape]?);
    let excluded = Con::NotShape(x, name, args.len() as u64);
    at_part(alloc, at, excluded, aim, other)
}

/// The first pair that two terms come to is to be apart, or some pair of the rest.
pub(crate) fn differ_pair<M: Situation>(
    alloc: Global,
    at: &mut M,
    left: &Term,
    right: &Term,
    rest: Pairs,
    aim: Aim,
) -> Result<bool, SearchErr>
    ensures { (p : ThisProgram) → Forks p (differ_pair sat (M.now at.old) (tm_of left.now) (tm_of right.now) rest aim) (M.now at.new) (M.points at.new) (M.points at.old) result }
{
    match (left, right) {
        (Term::Var(x), Term::Var(y)) => differ_variables(alloc, at, *x, *y, rest, aim),
        (Term::Var(x), Term::Num(value)) => differ_number(alloc, at, *x, *value, rest, aim),
        (Term::Num(value), Term::Var(y)) => differ_number(alloc, at, *y, *value, rest, aim),
        (Term::Var(x), Term::App(name, args)) => {
            differ_shape(alloc, at, *x, *name, args, rest, aim)
        }
        (Term::App(name, args), Term::Var(y)) => {
            differ_shape(alloc, at, *y, *name, args, rest, aim)
        }
        (Term::Num(_) | Term::App(_, _), Term::Num(_) | Term::App(_, _)) => {
            when_apart(at, aim)?;
            Ok(true)
        }
    }
}
