//! Equations taken apart.
ghost use Rattle.std.specs.Prelude.{◌≡◌, ◌<◌, ◌+◌, ◌&&◌, nat_eq, length, IfOk};
ghost use Rattle.scasp_syntax.specs.Tm.{items, weight, weight_s};
ghost use Rattle.scasp_syntax.specs.View.{tm_of};
ghost use Rattle.scasp_unify.specs.Parts.{both_parts, occurs, occurs_among, part_if, parts, parts_each};
ghost use Rattle.scasp_unify.specs.Solving.{AddsParts, TakesApart};

use scasp_list::Memory;
use scasp_name::NameId;
use scasp_syntax::{Term, Terms, Walk, copy};
use std::alloc::Global;
use std::slice;

/// A part of an equation: a variable, and the term on the other side, which has it not.
#[derive(Debug, Drop)]
pub struct Part {
    pub at: u64,
    pub term: Term,
    /// Whether the variable stood on the right.
    pub turned: bool,
}

/// Whether the variable stands in the term. It takes memory for the terms that are still to be seen, and no machine stack.
fn occurs(alloc: Global, x: u64, term: &Term) -> Result<bool, Memory>
    ensures { IfOk result (λ answer. answer ≡ occurs x (tm_of term.now)) }
{
    match term {
        Term::Var(y) => Ok(x == *y),
        Term::Num(_) => Ok(false),
        Term::App(_, args) => occurs_among(alloc, x, args),
    }
}

/// Whether the variable stands in one of the terms, with memory as `occurs`.
#[tactic(auto, using(crate::proofs::PartLemmas::seen_here, crate::proofs::PartLemmas::other_passed, crate::proofs::PartLemmas::number_passed, crate::proofs::PartLemmas::args_next, crate::proofs::PartLemmas::no_args, crate::proofs::PartLemmas::none_seen, crate::proofs::PartLemmas::less_left, crate::proofs::PartLemmas::less_entered))]
fn occurs_among(alloc: Global, x: u64, terms: &Terms) -> Result<bool, Memory>
    ensures { IfOk result (λ answer. answer ≡ occurs_among x terms.now) }
{
    let mut left = Walk::over(alloc, terms.as_slice());
    'terms: while let Some(term) = left.next() {
        match term {
            Term::Var(y) => {
                if x == *y {
                    return Ok(true);
                }
            }
            Term::Num(_) => {}
            Term::App(_, args) => {
                if args.len() == 0 {
                    continue;
                }
                left.enter(args)?;
            }
        }
    }
    Ok(false)
}

/// Finds the part of a variable against a term that is no variable; false where the term has the variable.
fn find_part(
    alloc: Global,
    at: u64,
    term: &Term,
    turned: bool,
    found: &mut Vec<Part>,
) -> Result<bool, Memory>
    ensures { IfOk result (λ whole. AddsParts found.old.items found.new.items whole (part_if at (tm_of term.now) turned)) }
{
    if occurs(alloc, at, term)? {
        return Ok(false);
    }
    found.push(Part {
        at,
        term: copy(alloc, term)?,
        turned,
    })?;
    Ok(true)
}

/// Whether the names are the same and have as many arguments.
fn is_same_shape(first: NameId, args: &Terms, second: NameId, others: &Terms) -> bool
    ensures { result ≡ (nat_eq first second && nat_eq (length (items args.now)) (length (items others.now))) }
{
    first == second && args.len() == others.len()
}

/// Takes two terms apart. A part is put behind those found before; arguments are left to be taken apart before what was left.
/// False where the terms clash.
#[tactic(auto, using(crate::proofs::PartLemmas::shapes_clash, crate::proofs::PartLemmas::names_apart, crate::proofs::PartLemmas::constants_apart))]
fn take_apart<'a>(
    alloc: Global,
    left: &'a Term,
    right: &'a Term,
    lefts: &mut Walk<'a>,
    rights: &mut Walk<'a>,
    found: &mut Vec<Part>,
) -> Result<bool, Memory>
    ensures parts { IfOk result (λ whole. TakesApart found.old.items found.new.items whole
        (both_parts (parts (tm_of left.now) (tm_of right.now)) (parts_each lefts.old rights.old)) (parts_each lefts.new rights.new)) }
    ensures less { IfOk result (λ whole. weight_s lefts.new < weight (tm_of left.now) + weight_s lefts.old) }
{
    match (left, right) {
        (Term::Var(x), Term::Var(y)) => {
            if x != y {
                found.push(Part {
                    at: *x,
                    term: Term::Var(*y),
                    turned: false,
                })?;
            }
            Ok(true)
        }
        (Term::Var(x), Term::Num(_) | Term::App(_, _)) => find_part(alloc, *x, right, false, found),
        (Term::Num(_) | Term::App(_, _), Term::Var(y)) => find_part(alloc, *y, left, true, found),
        (Term::Num(first), Term::Num(second)) => Ok(first == second),
        (Term::App(first, args), Term::App(second, others)) => {
            if !is_same_shape(*first, args, *second, others) {
                return Ok(false);
            }
            if args.len() == 0 {
                return Ok(true);
            }
            lefts.enter(args)?;
            rights.enter(others)?;
            Ok(true)
        }
        (Term::Num(_), Term::App(_, _)) | (Term::App(_, _), Term::Num(_)) => Ok(false),
    }
}

/// Finds the parts of an equation between two terms, from the left, and puts them behind those found before; false
/// where two names or numbers clash, or a variable stands inside the other side. It takes memory for the terms that are
/// still to be taken apart, and no machine stack.
#[tactic(auto, using(crate::proofs::PartLemmas::whole_left, crate::proofs::PartLemmas::step_left, crate::proofs::PartLemmas::step_clash, crate::proofs::PartLemmas::left_alone, crate::proofs::PartLemmas::right_alone, crate::proofs::PartLemmas::none_left))]
pub(crate) fn find_parts(
    alloc: Global,
    left: &Term,
    right: &Term,
    found: &mut Vec<Part>,
) -> Result<bool, Memory>
    ensures { IfOk result (λ whole. AddsParts found.old.items found.new.items whole (parts (tm_of left.now) (tm_of right.now))) }
{
    let mut lefts = Walk::over(alloc, slice::from_ref(left));
    let mut rights = Walk::over(alloc, slice::from_ref(right));
    'pairs: while let Some(first) = lefts.next() {
        let Some(second) = rights.next() else {
            return Ok(false);
        };
        if !take_apart(alloc, first, second, &mut lefts, &mut rights, found)? {
            return Ok(false);
        }
    }
    Ok(rights.next().is_none())
}
