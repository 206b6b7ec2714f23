//! The order of a list: the bounds of a variable stand beside one another, the lower ones first.
ghost use Rattle.std.specs.Prelude.{◌≡◌, ◌∷◌, ◌++◌, not, filter, IfOk, OnOk};
ghost use Rattle.scasp_shorten.specs.Shortest.{bound_by, bound_of, bound_with, bounds_first, in_order, is_bound, is_lower, is_upper, put_by};

use crate::following::push_copies;
use scasp_list::Memory;
use scasp_num::{Coeff, Op, Row};
use scasp_syntax::{Con, Cons, DeepCopy};
use std::alloc::Global;

/// What a constraint bounds, and from which side.
#[derive(Clone, Copy)]
pub(crate) enum Bound {
    /// No variable by itself.
    None,
    /// The variable from below.
    Lower(u64),
    /// The variable from above.
    Upper(u64),
}

impl Bound {
    /// Whether it bounds the variable from below.
    fn is_lower(self, x: u64) -> bool
        ensures { result ≡ is_lower x self }
    {
        match self {
            Bound::Lower(y) => x == y,
            Bound::None | Bound::Upper(_) => false,
        }
    }

    /// Whether it bounds the variable from above.
    fn is_upper(self, x: u64) -> bool
        ensures { result ≡ is_upper x self }
    {
        match self {
            Bound::Upper(y) => x == y,
            Bound::None | Bound::Lower(_) => false,
        }
    }
}

/// What a row with these coefficients bounds.
fn bound_by(coeffs: &[Coeff]) -> Bound
    ensures { result ≡ bound_by coeffs.now }
{
    match coeffs {
        [k] => {
            if k.c < 0 {
                Bound::Lower(k.x)
            } else {
                Bound::Upper(k.x)
            }
        }
        [] | [_, _, ..] => Bound::None,
    }
}

/// What the row bounds.
fn row_bound(row: &Row) -> Bound
    ensures { result ≡ bound_with row.now.op row.now.coeffs }
{
    match row.op() {
        Op::Lt | Op::Le => bound_by(row.coeffs().as_slice()),
        Op::Eq | Op::Ne => Bound::None,
    }
}

/// What the constraint bounds.
fn bound_of(constraint: &Con) -> Bound
    ensures { result ≡ bound_of constraint.now }
{
    match constraint {
        Con::Row(row) => row_bound(row),
        Con::Eq(_, _) | Con::Neq(_, _) | Con::NotShape(_, _, _) | Con::Num(_) | Con::NotNum(_) => {
            Bound::None
        }
    }
}

/// Puts the lower bounds of the variable behind the others.
fn push_lower(alloc: Global, made: &mut Cons, x: u64, list: &[Con]) -> Result<(), Memory>
    ensures { OnOk result (made.new ≡ made.old ++ filter (λ c. is_lower x (bound_of c)) list.now) }
{
    for constraint in list {
        if bound_of(constraint).is_lower(x) {
            made.push(constraint.copy(alloc)?)?;
        }
    }
    Ok(())
}

/// Puts the upper bounds of the variable behind the others.
fn push_upper(alloc: Global, made: &mut Cons, x: u64, list: &[Con]) -> Result<(), Memory>
    ensures { OnOk result (made.new ≡ made.old ++ filter (λ c. is_upper x (bound_of c)) list.now) }
{
    for constraint in list {
        if bound_of(constraint).is_upper(x) {
            made.push(constraint.copy(alloc)?)?;
        }
    }
    Ok(())
}

/// Puts what is no bound of the variable behind the others.
fn push_others(alloc: Global, made: &mut Cons, x: u64, list: &[Con]) -> Result<(), Memory>
    ensures { OnOk result (made.new ≡ made.old ++ filter (λ c. not (is_bound x (bound_of c))) list.now) }
{
    for constraint in list {
        let bound = bound_of(constraint);
        if !(bound.is_lower(x) || bound.is_upper(x)) {
            made.push(constraint.copy(alloc)?)?;
        }
    }
    Ok(())
}

/// The lower bounds of the variable, its upper ones, and then all else.
fn bounds_first(alloc: Global, x: u64, list: &[Con]) -> Result<Cons, Memory>
    ensures { IfOk result (λ made. made ≡ bounds_first x list.now) }
{
    let mut made = Cons::new(alloc);
    push_lower(alloc, &mut made, x, list)?;
    push_upper(alloc, &mut made, x, list)?;
    push_others(alloc, &mut made, x, list)?;
    Ok(made)
}

/// The list with a constraint before it that bounds so.
fn put_first(alloc: Global, constraint: &Con, rest: &[Con]) -> Result<Cons, Memory>
    ensures { IfOk result (λ made. made ≡ put_by (bound_of constraint.now) (constraint.now ∷ rest.now)) }
{
    let mut all = Cons::new(alloc);
    all.push(constraint.copy(alloc)?)?;
    push_copies(alloc, &mut all, rest)?;
    match bound_of(constraint) {
        Bound::None => Ok(all),
        Bound::Lower(x) | Bound::Upper(x) => bounds_first(alloc, x, all.as_slice()),
    }
}

/// The list with the bounds of each variable beside one another.
pub(crate) fn in_order(alloc: Global, list: &[Con]) -> Result<Cons, Memory>
    ensures { IfOk result (λ made. made ≡ in_order list.now) }
{
    let mut made = Cons::new(alloc);
    for place in (0..list.len()).rev() {
        made = put_first(alloc, &list[place], made.as_slice())?;
    }
    Ok(made)
}
