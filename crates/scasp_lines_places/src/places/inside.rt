//! Inside a rule under a negated literal, and inside a check.
ghost use Rattle.std.specs.Prelude.{◌≡◌, Bool, IfOk, option_copied};
ghost use Rattle.scasp_lines.specs.Bodies.{inside, inside_check, inside_rule, is_bare};
ghost use Rattle.scasp_lines.specs.Covers.{value_of};
ghost use Rattle.scasp_lines.specs.Places.{with_opened};
ghost use Rattle.scasp_lines_places.specs.Places.View.{all_bound, all_opened, body_of, inside_of, opening_of, place_of};
ghost use Rattle.scasp_syntax.specs.Flat.{flat_body};

use crate::places::chain::Chain;
use crate::places::cover::{Cover, covering};
use crate::places::opening::{Opening, open_head};
use crate::places::place::Place;
use scasp_list::Memory;
use scasp_syntax::{Atom, Clause, DeepCopy, FlatItems, flat};
use scasp_unify::Binding;
use std::alloc::Global;

/// The clause whose cases are looked at: its flat items, its head, whether it is checked beside the query, and what its
/// variables, which are numbered below `vars`, stand for.
#[derive(Drop)]
pub struct Body {
    pub items: FlatItems,
    pub head: Option<Atom>,
    pub is_check: bool,
    pub vars: u64,
    pub values: Chain<Binding>,
}

/// What holds inside a rule or a check, the number of the next universal variable, the body, and whether its cases are plain.
#[derive(Drop)]
pub struct Inside {
    pub here: Place,
    pub next: u64,
    pub body: Body,
    pub bare: bool,
}

/// Whether the clause has no variable, and no argument in its head.
fn is_bare(clause: &Clause) -> bool
    ensures { result ≡ is_bare clause.now }
{
    match &clause.head {
        None => clause.vars == 0,
        Some(head) => clause.vars == 0 && head.args.len() == 0,
    }
}

/// The place behind what the head opened.
fn place_behind(here: &Place, cover: &Cover, hidden: u64) -> Result<Place, Memory>
    ensures { IfOk result (λ made. place_of made ≡ with_opened (all_opened cover.now.opened) hidden (place_of here.now)) }
{
    Ok(Place {
        opened: cover.opened.share()?,
        hidden,
        replaced: here.replaced.share()?,
        above: here.above.share()?,
        around: here.around.share()?,
    })
}

/// The body of a clause whose variables stand for these terms.
fn body_behind(
    alloc: Global,
    is_check: bool,
    clause: &Clause,
    bound: &Chain<Binding>,
) -> Result<Body, Memory>
    ensures { IfOk result (λ made. (bare : Bool) → body_of made bare
        ≡ record { items = flat_body clause.now.body; head = clause.now.head; is_check = is_check; bare = bare; vars = clause.now.vars; values = value_of (all_bound bound.now) }) }
{
    Ok(Body {
        items: flat(alloc, clause)?,
        head: clause.head.copy(alloc)?,
        is_check,
        vars: clause.vars,
        values: bound.share()?,
    })
}

/// Behind what the head of the clause opened.
fn behind_head(
    alloc: Global,
    is_check: bool,
    clause: &Clause,
    opening: Opening,
    next: u64,
    here: &Place,
) -> Result<Inside, Memory>
    ensures { IfOk result (λ made. inside_of made ≡ inside is_check clause.now (opening_of opening) next (place_of here.now)) }
{
    let hidden = opening.hidden;
    let cover = covering(alloc, clause.vars, next, opening)?;
    let place = place_behind(here, &cover, hidden)?;
    let body = body_behind(alloc, is_check, clause, &cover.bound)?;
    Ok(Inside {
        here: place,
        next: cover.next,
        body,
        bare: is_bare(clause),
    })
}

/// Inside a clause that is not there: nothing opens, and there is no item.
fn inside_nothing(alloc: Global, next: u64, here: &Place) -> Result<Inside, Memory>
    ensures { IfOk result (λ made. inside_of made ≡ inside_check None next (place_of here.now)) }
{
    Ok(Inside {
        here: here.share()?,
        next,
        body: Body {
            items: FlatItems::new(alloc),
            head: None,
            is_check: false,
            vars: 0,
            values: Chain::new(),
        },
        bare: false,
    })
}

/// Inside a rule under a negated literal, behind what its head opens at the literal's atom.
pub fn inside_rule(
    alloc: Global,
    clause: Option<&Clause>,
    atom: &Atom,
    next: u64,
    here: &Place,
) -> Result<Inside, Memory>
    ensures { IfOk result (λ made. inside_of made ≡ inside_rule (option_copied clause.entry) atom.now next (place_of here.now)) }
{
    match clause {
        None => inside_nothing(alloc, next, here),
        Some(clause) => {
            let mut opening = Opening::start(&here.opened, here.hidden)?;
            open_head(alloc, &clause.head, atom, &mut opening)?;
            behind_head(alloc, false, clause, opening, next, here)
        }
    }
}

/// Inside a check.
pub fn inside_check(
    alloc: Global,
    clause: Option<&Clause>,
    next: u64,
    here: &Place,
) -> Result<Inside, Memory>
    ensures { IfOk result (λ made. inside_of made ≡ inside_check (option_copied clause.entry) next (place_of here.now)) }
{
    match clause {
        None => inside_nothing(alloc, next, here),
        Some(clause) => {
            let opening = Opening::start(&here.opened, here.hidden)?;
            behind_head(alloc, true, clause, opening, next, here)
        }
    }
}
