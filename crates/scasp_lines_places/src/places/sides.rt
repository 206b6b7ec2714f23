//! The two sides of a split.
ghost use Rattle.std.specs.Prelude.{◌≡◌, None, IfOk, if◌then◌else◌, option_map};
ghost use Rattle.scasp_lines.specs.Sides.{also_replaced, other_side, replaced_by, replaced_on, shape_between, shape_of, shape_side, shape_sides, side_of, sides, sides_by, with_entry};
ghost use Rattle.scasp_lines.specs.Places.{is_universal};
ghost use Rattle.scasp_lines_places.specs.Places.View.{all_replaced, opened_of, place_of, shape_value, sides_of};
ghost use Rattle.scasp_syntax.specs.View.{tm_of};

use crate::places::chain::Chain;
use crate::places::parts::{are_new_parts, negated, new_parts};
use crate::places::place::{Entry, Place};
use crate::places::scope::is_universal;
use crate::places::substitution::{Replaced, under};
use scasp_list::Memory;
use scasp_name::NameId;
use scasp_syntax::{Con, DeepCopy, Term};
use scasp_unify::Binding;
use std::alloc::Global;

/// A variable against a name with new parts.
#[derive(Clone, Copy, Debug, PartialEq, Eq)]
pub struct Shape {
    pub of: u64,
    pub name: NameId,
    pub size: u64,
}

/// What holds on the two sides, and the number of the next universal variable.
#[derive(Drop)]
pub struct Sides {
    pub first: Place,
    pub second: Place,
    pub next: u64,
}

/// What is the same for all lines: the number of free variables, and a number that no universal variable reaches.
#[derive(Clone, Copy, Debug, PartialEq, Eq)]
pub struct Bounds {
    pub free: u64,
    pub top: u64,
}

fn shape_between(next: u64, left: &Term, right: &Term) -> Option<Shape>
    ensures { option_map shape_value result ≡ shape_between next (tm_of left.now) (tm_of right.now) }
{
    match (left, right) {
        (Term::Var(x), Term::App(name, args)) => {
            if 0 < args.len() && are_new_parts(next, args) {
                Some(Shape {
                    of: *x,
                    name: *name,
                    size: args.len() as u64,
                })
            } else {
                None
            }
        }
        (Term::Var(_), Term::Var(_) | Term::Num(_)) => None,
        (Term::Num(_) | Term::App(_, _), Term::Var(_) | Term::Num(_) | Term::App(_, _)) => None,
    }
}

/// The shape that a split by the constraint is about: a variable equals, or does not, a name with the next new variables.
pub fn shape_of(next: u64, constraint: &Con) -> Option<Shape>
    ensures { option_map shape_value result ≡ shape_of next constraint.now }
{
    match constraint {
        Con::Eq(left, right) | Con::Neq(left, right) => shape_between(next, left, right),
        Con::NotShape(_, _, _) | Con::Num(_) | Con::NotNum(_) | Con::Row(_) => None,
    }
}

/// A place at which this opened, too, and this is replaced.
fn with_entry(
    alloc: Global,
    entry: Entry,
    replaced: Chain<Binding>,
    here: &Place,
) -> Result<Place, Memory>
    ensures { IfOk result (λ made. place_of made ≡ with_entry (opened_of entry) (all_replaced replaced) (place_of here.now)) }
{
    Ok(Place {
        opened: here.opened.with(alloc, entry)?,
        hidden: here.hidden,
        replaced,
        above: here.above.share()?,
        around: here.around.share()?,
    })
}

/// What is replaced, with the term for the variable.
fn also_replaced(
    alloc: Global,
    x: u64,
    term: &Term,
    replaced: &Chain<Binding>,
) -> Result<Chain<Binding>, Memory>
    ensures { IfOk result (λ made. all_replaced made ≡ also_replaced x (tm_of term.now) (all_replaced replaced.now)) }
{
    let term = under(alloc, term, &Replaced { all: replaced })?;
    replaced.with(alloc, Binding { x, term })
}

/// What an equation replaces: a universal variable that is its left side, else one that is its right side.
fn replaced_by(
    alloc: Global,
    bounds: Bounds,
    left: &Term,
    right: &Term,
    here: &Place,
) -> Result<Chain<Binding>, Memory>
    ensures { IfOk result (λ made. all_replaced made
        ≡ replaced_by (is_universal bounds.free bounds.top (place_of here.now)) (tm_of left.now) (tm_of right.now) (all_replaced here.now.replaced)) }
{
    match (left, right) {
        (Term::Var(x), Term::Var(_) | Term::Num(_) | Term::App(_, _)) => {
            replaced_where_universal(alloc, bounds, *x, right, here)
        }
        (Term::Num(_) | Term::App(_, _), Term::Var(x)) => {
            replaced_where_universal(alloc, bounds, *x, left, here)
        }
        (Term::Num(_) | Term::App(_, _), Term::Num(_) | Term::App(_, _)) => here.replaced.share(),
    }
}

/// What is replaced, with the term for the variable where that is universal.
fn replaced_where_universal(
    alloc: Global,
    bounds: Bounds,
    x: u64,
    term: &Term,
    here: &Place,
) -> Result<Chain<Binding>, Memory>
    ensures { IfOk result (λ made. all_replaced made
        ≡ (if is_universal bounds.free bounds.top (place_of here.now) x then also_replaced x (tm_of term.now) (all_replaced here.now.replaced) else all_replaced here.now.replaced)) }
{
    if is_universal(alloc, bounds.free, bounds.top, here, x)? {
        also_replaced(alloc, x, term, &here.replaced)
    } else {
        here.replaced.share()
    }
}

/// What the constraint replaces.
fn replaced_on(
    alloc: Global,
    bounds: Bounds,
    constraint: &Con,
    here: &Place,
) -> Result<Chain<Binding>, Memory>
    ensures { IfOk result (λ made. all_replaced made
        ≡ replaced_on (is_universal bounds.free bounds.top (place_of here.now)) constraint.now (all_replaced here.now.replaced)) }
{
    match constraint {
        Con::Eq(left, right) => replaced_by(alloc, bounds, left, right, here),
        Con::Neq(_, _) | Con::NotShape(_, _, _) | Con::Num(_) | Con::NotNum(_) | Con::Row(_) => {
            here.replaced.share()
        }
    }
}

/// The side on which the constraint is true.
fn side_of(alloc: Global, bounds: Bounds, constraint: Con, here: &Place) -> Result<Place, Memory>
    ensures { IfOk result (λ made. place_of made ≡ side_of (is_universal bounds.free bounds.top (place_of here.now)) constraint (place_of here.now)) }
{
    let replaced = replaced_on(alloc, bounds, &constraint, here)?;
    with_entry(alloc, Entry::Assumed(constraint), replaced, here)
}

/// The side on which the variable has the shape.
fn shape_side(
    alloc: Global,
    bounds: Bounds,
    next: u64,
    shape: Shape,
    here: &Place,
) -> Result<Place, Memory>
    ensures { IfOk result (λ made. place_of made ≡ shape_side (is_universal bounds.free bounds.top (place_of here.now)) next (shape_value shape) (place_of here.now)) }
{
    let term = Term::App(shape.name, new_parts(alloc, next, shape.size)?);
    let replaced = replaced_where_universal(alloc, bounds, shape.of, &term, here)?;
    let entry = Entry::Shaped {
        of: shape.of,
        name: shape.name,
        first: next,
        size: shape.size,
    };
    with_entry(alloc, entry, replaced, here)
}

/// The side on which it has not.
fn other_side(alloc: Global, shape: Shape, here: &Place) -> Result<Place, Memory>
    ensures { IfOk result (λ made. place_of made ≡ other_side (shape_value shape) (place_of here.now)) }
{
    let excluded = Con::NotShape(shape.of, shape.name, shape.size);
    with_entry(
        alloc,
        Entry::Assumed(excluded),
        here.replaced.share()?,
        here,
    )
}

/// The sides of a split by a shape.
fn shape_sides(
    alloc: Global,
    bounds: Bounds,
    next: u64,
    shape: Shape,
    constraint: &Con,
    here: &Place,
) -> Result<Sides, Memory>
    ensures { IfOk result (λ made. sides_of made
        ≡ shape_sides (is_universal bounds.free bounds.top (place_of here.now)) next (shape_value shape) constraint.now (place_of here.now)) }
{
    match constraint {
        Con::Neq(_, _) => Ok(Sides {
            first: other_side(alloc, shape, here)?,
            second: shape_side(alloc, bounds, next, shape, here)?,
            next: next.checked_add(shape.size).ok_or(Memory)?,
        }),
        Con::Eq(_, _) => Ok(Sides {
            first: shape_side(alloc, bounds, next, shape, here)?,
            second: other_side(alloc, shape, here)?,
            next: next.checked_add(shape.size).ok_or(Memory)?,
        }),
        Con::NotShape(_, _, _) | Con::Num(_) | Con::NotNum(_) | Con::Row(_) => Ok(Sides {
            first: here.share()?,
            second: here.share()?,
            next,
        }),
    }
}

/// The sides of a split by a constraint that is about no shape.
fn plain_sides(
    alloc: Global,
    bounds: Bounds,
    constraint: &Con,
    here: &Place,
    next: u64,
) -> Result<Sides, Memory>
    ensures { IfOk result (λ made. sides_of made
        ≡ sides_by (is_universal bounds.free bounds.top (place_of here.now)) next None constraint.now (place_of here.now)) }
{
    let negation = negated(alloc, here.hidden, constraint)?;
    Ok(Sides {
        first: side_of(alloc, bounds, constraint.copy(alloc)?, here)?,
        second: side_of(alloc, bounds, negation, here)?,
        next,
    })
}

/// The sides of a split by the constraint.
pub fn both_sides(
    alloc: Global,
    bounds: Bounds,
    constraint: &Con,
    here: &Place,
    next: u64,
) -> Result<Sides, Memory>
    ensures { IfOk result (λ made. sides_of made ≡ sides bounds.free bounds.top constraint.now (place_of here.now) next) }
{
    match shape_of(next, constraint) {
        Some(shape) => shape_sides(alloc, bounds, next, shape, constraint, here),
        None => plain_sides(alloc, bounds, constraint, here, next),
    }
}
