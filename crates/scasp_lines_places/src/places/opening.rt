//! What opens where a rule is taken at a literal: the arguments of its head against those of the literal, from the left.
ghost use Rattle.std.specs.Prelude.{◌≡◌, ◌+◌, ◌<◌, length, IfOk, OnOk, option_copied, option_map};
ghost use Rattle.scasp_lines.specs.Bodies.{open_head};
ghost use Rattle.scasp_lines.specs.Openings.{number_one, number_zero, open_number, open_term, open_terms, open_variable, bound_to, unopened, with_assumed, with_bound, with_clash, with_shape};
ghost use Rattle.scasp_lines_places.specs.Places.Against.{open_given, open_new};
ghost use Rattle.scasp_lines_places.specs.Places.View.{all_bound, all_opened, opening_of};
ghost use Rattle.scasp_syntax.specs.Tm.{items, var, weight, weight_s};
ghost use Rattle.scasp_syntax.specs.View.{tm_of, tms_of};
ghost use Rattle.scasp_unify.specs.Negations.{new_parts};

use crate::places::chain::Chain;
use crate::places::place::Entry;
use crate::places::substitution::bound_to;
use scasp_list::Memory;
use scasp_name::NameId;
use scasp_num::Rat;
use scasp_syntax::{Atom, Con, Term, Terms, copy};
use scasp_unify::Binding;
use std::alloc::Global;

/// What the head's variables stand for so far, what opened, and the number of the next part that appears on no line.
#[derive(Drop)]
pub struct Opening {
    pub bound: Chain<Binding>,
    pub opened: Chain<Entry>,
    pub hidden: u64,
}

/// The number 0.
fn zero() -> Rat
    ensures { result ≡ number_zero }
{
    match Rat::new(0, 1) {
        Ok(zero) => zero,
        Err(_) => unreachable!(),
    }
}

/// The number 1.
fn one() -> Rat
    ensures { result ≡ number_one }
{
    match Rat::new(1, 1) {
        Ok(one) => one,
        Err(_) => unreachable!(),
    }
}

impl Opening {
    /// Nothing is bound, and nothing more opened.
    pub fn start(opened: &Chain<Entry>, hidden: u64) -> Result<Opening, Memory>
        ensures { IfOk result (λ made. opening_of made ≡ unopened (all_opened opened.now) hidden) }
    {
        Ok(Opening {
            bound: Chain::new(),
            opened: opened.share()?,
            hidden,
        })
    }

    fn bind(&mut self, alloc: Global, x: u64, term: Term) -> Result<(), Memory>
        ensures { OnOk result (opening_of self.new ≡ with_bound (opening_of self.old) x (tm_of term)) }
    {
        self.bound = self.bound.with(alloc, Binding { x, term })?;
        Ok(())
    }

    fn assume(&mut self, alloc: Global, constraint: Con) -> Result<(), Memory>
        ensures { OnOk result (opening_of self.new ≡ with_assumed (opening_of self.old) constraint) }
    {
        self.opened = self.opened.with(alloc, Entry::Assumed(constraint))?;
        Ok(())
    }

    /// The variable is the name with so many arguments; gives the first of the new variables for them.
    fn shape(&mut self, alloc: Global, of: u64, name: NameId, size: u64) -> Result<u64, Memory>
        ensures first { IfOk result (λ first. first ≡ self.old.hidden) }
        ensures opened { IfOk result (λ first. opening_of self.new ≡ with_shape (opening_of self.old) of name size) }
    {
        let first = self.hidden;
        self.hidden = first.checked_add(size).ok_or(Memory)?;
        self.opened = self.opened.with(
            alloc,
            Entry::Shaped {
                of,
                name,
                first,
                size,
            },
        )?;
        Ok(first)
    }

    fn clash(&mut self, alloc: Global) -> Result<(), Memory>
        ensures { OnOk result (opening_of self.new ≡ with_clash (opening_of self.old)) }
    {
        self.assume(alloc, Con::Eq(Term::Num(zero()), Term::Num(one())))
    }
}

/// A variable of the head against a part of the literal.
fn open_variable(alloc: Global, x: u64, part: &Term, opening: &mut Opening) -> Result<(), Memory>
    ensures { OnOk result (opening_of opening.new ≡ open_variable (bound_to (all_bound opening.old.bound) x) x (tm_of part.now) (opening_of opening.old)) }
{
    let part = copy(alloc, part)?;
    let before = match bound_to(&opening.bound, x) {
        Some(term) => Some(copy(alloc, term)?),
        None => None,
    };
    match before {
        Some(term) => opening.assume(alloc, Con::Eq(term, part)),
        None => opening.bind(alloc, x, part),
    }
}

/// A number of the head against a part of the literal.
fn open_number(alloc: Global, value: &Rat, part: &Term, opening: &mut Opening) -> Result<(), Memory>
    ensures { OnOk result (opening_of opening.new ≡ open_number value.now (tm_of part.now) (opening_of opening.old)) }
{
    match part {
        Term::Var(y) => {
            opening.assume(alloc, Con::Num(Term::Var(*y)))?;
            opening.assume(alloc, Con::Eq(Term::Var(*y), Term::Num(*value)))
        }
        Term::Num(other) => {
            if other == value {
                Ok(())
            } else {
                opening.clash(alloc)
            }
        }
        Term::App(_, _) => opening.clash(alloc),
    }
}

/// A part of the head against a new variable; gives its arguments, and the first of the new variables that they stand against.
fn open_new<'a>(
    alloc: Global,
    head: &'a Term,
    x: u64,
    opening: &mut Opening,
) -> Result<(&'a [Term], u64), Memory>
    ensures opened { IfOk result (λ inner. open_new inner (opening_of opening.new) ≡ open_term (tm_of head.now) (var x) (opening_of opening.old)) }
    ensures lighter { IfOk result (λ inner. weight_s (tms_of inner.0.now) < weight (tm_of head.now)) }
{
    match head {
        Term::Var(y) => {
            open_variable(alloc, *y, &Term::Var(x), opening)?;
            Ok((&[], 0))
        }
        Term::Num(value) => {
            open_number(alloc, value, &Term::Var(x), opening)?;
            Ok((&[], 0))
        }
        Term::App(name, args) => {
            let first = opening.shape(alloc, x, *name, args.len() as u64)?;
            Ok((args.as_slice(), first))
        }
    }
}

/// The variable after this one.
fn after(x: u64) -> Result<u64, Memory>
    ensures { IfOk result (λ next. next ≡ x + 1) }
{
    x.checked_add(1).ok_or(Memory)
}

/// Terms of the head against new variables, from the first one on.
fn open_all_new<'a>(
    alloc: Global,
    heads: &'a [Term],
    first: u64,
    opening: &mut Opening,
) -> Result<(), Memory>
    ensures { OnOk result (opening_of opening.new ≡ open_terms (tms_of heads.now) (new_parts first (length (items (tms_of heads.now)))) (opening_of opening.old)) }
{
    let mut later: Vec<(&[Term], u64)> = Vec::new(alloc);
    later.push((heads, first))?;
    'lists: while let Some((list, x)) = later.pop() {
        let Some((head, rest)) = list.split_first() else {
            continue;
        };
        let next = after(x)?;
        later.push((rest, next))?;
        later.push(open_new(alloc, head, x, opening)?)?;
    }
    Ok(())
}

/// A part of the head against a part of the literal; gives the arguments that are still to be opened.
fn open_outer<'a>(
    alloc: Global,
    head: &'a Term,
    part: &'a Term,
    opening: &mut Opening,
) -> Result<(&'a [Term], &'a [Term]), Memory>
    ensures opened { IfOk result (λ inner. open_given inner (opening_of opening.new) ≡ open_term (tm_of head.now) (tm_of part.now) (opening_of opening.old)) }
    ensures lighter { IfOk result (λ inner. weight_s (tms_of inner.0.now) < weight (tm_of head.now)) }
{
    match (head, part) {
        (Term::Var(x), Term::Var(_) | Term::Num(_) | Term::App(_, _)) => {
            open_variable(alloc, *x, part, opening)?;
        }
        (Term::Num(value), Term::Var(_) | Term::Num(_) | Term::App(_, _)) => {
            open_number(alloc, value, part, opening)?;
        }
        (Term::App(name, args), Term::Var(y)) => {
            let first = opening.shape(alloc, *y, *name, args.len() as u64)?;
            open_all_new(alloc, args.as_slice(), first, opening)?;
        }
        (Term::App(_, _), Term::Num(_)) => opening.clash(alloc)?,
        (Term::App(name, args), Term::App(other, parts)) => {
            if other == name && parts.len() == args.len() {
                return Ok((args.as_slice(), parts.as_slice()));
            }
            opening.clash(alloc)?;
        }
    }
    Ok((&[], &[]))
}

/// Terms of the head against terms of the literal, as far as there are both. It takes memory for the arguments that are still to be
/// opened, and no machine stack.
fn open_terms<'a>(
    alloc: Global,
    heads: &'a Terms,
    parts: &'a Terms,
    opening: &mut Opening,
) -> Result<(), Memory>
    ensures { OnOk result (opening_of opening.new ≡ open_terms heads.now parts.now (opening_of opening.old)) }
{
    let mut later: Vec<(&[Term], &[Term])> = Vec::new(alloc);
    later.push((heads.as_slice(), parts.as_slice()))?;
    'lists: while let Some((list, others)) = later.pop() {
        let Some((head, rest)) = list.split_first() else {
            continue;
        };
        let Some((part, behind)) = others.split_first() else {
            continue;
        };
        later.push((rest, behind))?;
        later.push(open_outer(alloc, head, part, opening)?)?;
    }
    Ok(())
}

/// The head of a clause, where it has one, against the literal.
pub fn open_head(
    alloc: Global,
    head: &Option<Atom>,
    atom: &Atom,
    opening: &mut Opening,
) -> Result<(), Memory>
    ensures { OnOk result (opening_of opening.new ≡ open_head head.now atom.now (opening_of opening.old)) }
{
    match head {
        None => Ok(()),
        Some(head) => open_terms(alloc, &head.args, &atom.args, opening),
    }
}
