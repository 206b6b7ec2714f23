//! Dues: what the nodes below a line have to show.
ghost use Rattle.std.specs.Prelude.{◌≡◌, ◌++◌, Bool, true, [], map, IfOk, OnOk, option_copied};
ghost use Rattle.scasp_lines_places.specs.Dues.DueView.{due_value};
ghost use Rattle.scasp_lines.specs.Dues.{due_of, dues_until, head_due, head_dues, leaf_dues, query_dues, rule_dues};
ghost use Rattle.scasp_lines_places.specs.Places.View.{body_of, place_of};

use crate::dues::determining::determined;
use crate::places::{Body, ClauseValues, Place, Substitution, ValuesHere, atom_under, negated};
use scasp_list::{Memory, Sequence};
use scasp_syntax::{Atom, Clause, Con, FlatItem, Lit, Query, Terms, flat, flat_items};
use std::alloc::Global;

/// What a node has to show.
#[derive(Debug, Drop)]
pub enum Due {
    /// A literal.
    Goal(Lit),
    /// A constraint, where one is determined.
    Fact(Option<Con>),
    /// Nothing, where there is no item for it.
    Nothing,
}

/// A list of dues.
pub type Dues = Sequence<Due>;

/// What an item is due for where it is to be true or false.
fn due_of<S: Substitution>(
    alloc: Global,
    by: &S,
    truth: bool,
    item: &FlatItem,
) -> Result<Due, Memory>
    ensures { IfOk result (λ made. due_value made ≡ due_of (S.gives by.now) truth item.now) }
{
    match item {
        FlatItem::Call(literal) => Ok(Due::Goal(Lit {
            positive: literal.positive == truth,
            atom: atom_under(alloc, &literal.atom, by)?,
        })),
        FlatItem::Test(constraint) => {
            if truth {
                Ok(Due::Fact(determined(alloc, by, constraint)?))
            } else {
                let negation = negated(alloc, 0, constraint)?;
                Ok(Due::Fact(determined(alloc, by, &negation)?))
            }
        }
    }
}

/// What all items are due for where they are to be true.
fn all_true<S: Substitution>(alloc: Global, by: &S, items: &[FlatItem]) -> Result<Dues, Memory>
    ensures { IfOk result (λ made. map due_value made ≡ map (due_of (S.gives by.now) true) items.now) }
{
    let mut dues = Dues::new(alloc);
    for item in items {
        dues.push(due_of(alloc, by, true, item)?)?;
    }
    Ok(dues)
}

/// What the first `count` items are due for where the last of them is to be false.
#[tactic(auto, using(crate::proofs::DuesLemmas::DueLemmas::until_step, crate::proofs::DuesLemmas::DueLemmas::map_push))]
fn dues_until<S: Substitution>(
    alloc: Global,
    by: &S,
    count: u64,
    items: &[FlatItem],
) -> Result<Dues, Memory>
    ensures { IfOk result (λ made. map due_value made ≡ dues_until (S.gives by.now) count items.now) }
{
    let mut dues = Dues::new(alloc);
    for (place, item) in items.iter().enumerate() {
        let place = place as u64;
        if place >= count {
            return Ok(dues);
        }
        dues.push(due_of(alloc, by, 1 < count - place, item)?)?;
    }
    Ok(dues)
}

/// What the nodes below a line of this rule, under these terms, are due for.
pub fn rule_dues(
    alloc: Global,
    clause: Option<&Clause>,
    here: &Place,
    terms: &Terms,
) -> Result<Dues, Memory>
    ensures { IfOk result (λ made. map due_value made ≡ rule_dues (option_copied clause.entry) (place_of here.now) terms.now) }
{
    let Some(clause) = clause else {
        return Ok(Dues::new(alloc));
    };
    let items = flat(alloc, clause)?;
    let by = ValuesHere {
        values: ClauseValues::Listed(terms),
        replaced: &here.replaced,
    };
    all_true(alloc, &by, items.as_slice())
}

/// What the nodes of a query are due for, under the answer's terms.
pub fn query_dues(alloc: Global, query: Option<&Query>, terms: &Terms) -> Result<Dues, Memory>
    ensures { IfOk result (λ made. map due_value made ≡ query_dues (option_copied query.entry) terms.now) }
{
    let Some(query) = query else {
        return Ok(Dues::new(alloc));
    };
    let items = flat_items(alloc, &query.body)?;
    all_true(alloc, &ClauseValues::Listed(terms), items.as_slice())
}

/// What the nodes below a leaf are due for, whose item `item`, from 1, is false.
pub fn leaf_dues(alloc: Global, here: &Place, body: &Body, item: u64) -> Result<Dues, Memory>
    ensures { IfOk result (λ made. (bare : Bool) → map due_value made ≡ leaf_dues (place_of here.now) (body_of body.now bare) item) }
{
    let by = ValuesHere {
        values: ClauseValues::Bound(&body.values),
        replaced: &here.replaced,
    };
    dues_until(alloc, &by, item, body.items.as_slice())
}

/// Puts what the head is due for at the end.
fn push_head<S: Substitution>(
    alloc: Global,
    by: &S,
    head: &Option<Atom>,
    dues: &mut Dues,
) -> Result<(), Memory>
    ensures { OnOk result (map due_value dues.new ≡ map due_value dues.old ++ head_due (S.gives by.now) head.now) }
{
    match head {
        None => Ok(()),
        Some(atom) => {
            let atom = atom_under(alloc, atom, by)?;
            dues.push(Due::Goal(Lit {
                positive: true,
                atom,
            }))
        }
    }
}

/// What the nodes are due for below a case in which all items and the head hold.
pub fn head_dues(alloc: Global, here: &Place, body: &Body) -> Result<Dues, Memory>
    ensures { IfOk result (λ made. (bare : Bool) → map due_value made ≡ head_dues (place_of here.now) (body_of body.now bare)) }
{
    let by = ValuesHere {
        values: ClauseValues::Bound(&body.values),
        replaced: &here.replaced,
    };
    let mut dues = all_true(alloc, &by, body.items.as_slice())?;
    push_head(alloc, &by, &body.head, &mut dues)?;
    Ok(dues)
}
