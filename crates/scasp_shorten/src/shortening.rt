//! A list without what the rest of the list tells.
ghost use Rattle.std.specs.Prelude.{◌≡◌, ◌++◌, ◌&&◌, [], not, filter, IfOk};
ghost use Rattle.scasp_shorten.specs.Shortest.{is_test, is_told, is_told_by_rows, shortened, thinned, without_evident, without_tests};
ghost use Rattle.scasp_shorten.specs.declared.shortening.Means.TheVariants as means;

use crate::evident::is_evident;
use crate::following::{follows, has_row_of, push_copies, questions};
use scasp_list::Memory;
use scasp_syntax::{Con, Cons, DeepCopy, Term};
use std::alloc::Global;

/// So many questions are asked of a list.
const MOST_QUESTIONS: usize = 8;

/// How it is seen that a list tells a constraint.
#[derive(Clone, Copy)]
pub(crate) enum Means {
    /// By what is evident from the list.
    Evidence,
    /// By a question.
    Question,
}

/// Whether the list tells the constraint, as is seen by these means.
fn is_told(alloc: Global, means: Means, list: &[Con], constraint: &Con) -> Result<bool, Memory>
    ensures { IfOk result (λ is. is ≡ is_told means list.now constraint.now) }
{
    match means {
        Means::Evidence => is_evident(alloc, list, constraint),
        Means::Question => follows(alloc, list, constraint),
    }
}

/// Whether the constraint tests that a term is a number.
fn is_test(constraint: &Con) -> bool
    ensures { result ≡ is_test constraint.now }
{
    match constraint {
        Con::Num(_) => true,
        Con::Eq(_, _) | Con::Neq(_, _) | Con::NotShape(_, _, _) | Con::NotNum(_) | Con::Row(_) => {
            false
        }
    }
}

/// Whether the constraint is no number test, and told by the constraints before and behind it.
fn is_needless(
    alloc: Global,
    means: Means,
    before: &[Con],
    behind: &[Con],
    constraint: &Con,
) -> Result<bool, Memory>
    ensures { IfOk result (λ is. is ≡ (not (is_test constraint.now) && is_told means (before.now ++ behind.now) constraint.now)) }
{
    if is_test(constraint) {
        return Ok(false);
    }
    let mut others = Cons::new(alloc);
    push_copies(alloc, &mut others, before)?;
    push_copies(alloc, &mut others, behind)?;
    is_told(alloc, means, others.as_slice(), constraint)
}

/// What stays of the list behind the first ones: no constraint, but for number tests, that those which stay before it and
/// all behind it tell, as is seen by these means.
fn shortened(alloc: Global, means: Means, first: Cons, list: &[Con]) -> Result<Cons, Memory>
    ensures { IfOk result (λ made. made ≡ shortened means first list.now) }
{
    let mut before = first;
    let mut left = list;
    while let Some((constraint, behind)) = left.split_first() {
        if !is_needless(alloc, means, before.as_slice(), behind, constraint)? {
            before.push(constraint.copy(alloc)?)?;
        }
        left = behind;
    }
    Ok(before)
}

/// The list without what is evident.
pub(crate) fn without_evident(alloc: Global, list: &[Con]) -> Result<Cons, Memory>
    ensures { IfOk result (λ made. made ≡ without_evident list.now) }
{
    shortened(alloc, Means::Evidence, Cons::new(alloc), list)
}

/// The list without what questions show that the rest tells. Of a list that is worth too many they are asked about the
/// last constraints.
pub(crate) fn thinned(alloc: Global, list: &[Con]) -> Result<Cons, Memory>
    ensures { IfOk result (λ made. made ≡ thinned list.now) }
{
    let mut before = Cons::new(alloc);
    let mut left = list;
    while let Some((constraint, behind)) = left.split_first() {
        if questions(left) <= MOST_QUESTIONS {
            return shortened(alloc, Means::Question, before, left);
        }
        before.push(constraint.copy(alloc)?)?;
        left = behind;
    }
    Ok(before)
}

/// Whether the constraint is the number test of a number, or of a variable that some row of the list has.
fn is_told_by_rows(list: &[Con], constraint: &Con) -> bool
    ensures { result ≡ is_told_by_rows list.now constraint.now }
{
    match constraint {
        Con::Num(Term::Var(x)) => has_row_of(list, *x),
        Con::Num(Term::Num(_)) => true,
        Con::Num(Term::App(_, _)) => false,
        Con::Eq(_, _) | Con::Neq(_, _) | Con::NotShape(_, _, _) | Con::NotNum(_) | Con::Row(_) => {
            false
        }
    }
}

/// The list without the number tests of numbers, and of variables that rows have.
pub(crate) fn without_tests(alloc: Global, list: &[Con]) -> Result<Cons, Memory>
    ensures { IfOk result (λ made. made ≡ without_tests list.now) }
{
    let mut made = Cons::new(alloc);
    for constraint in list {
        if !is_told_by_rows(list, constraint) {
            made.push(constraint.copy(alloc)?)?;
        }
    }
    Ok(made)
}
