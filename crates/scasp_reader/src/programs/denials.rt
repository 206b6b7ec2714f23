//! Generated denials.
ghost use Rattle.std.specs.Prelude.{◌≡◌, ◌++◌, map, filter, IfOk, OnOk};
ghost use Rattle.scasp_syntax.specs.Denials.{variables_from, denial_of};
ghost use Rattle.scasp_reader.specs.Programs.Programs.{call_of};

use scasp_list::Memory;
use scasp_syntax::{Atom, Clause, Clauses, Item, Items, Lit, Pred, Term, Terms};
use std::alloc::Global;

/// So many variables, from 0 on.
fn variables(alloc: Global, count: u64) -> Result<Terms, Memory>
    ensures { IfOk result (λ terms. terms ≡ variables_from 0 count) }
{
    let mut terms = Terms::new(alloc);
    for x in 0..count {
        terms.push(Term::Var(x))?;
    }
    Ok(terms)
}

/// The call of the predicate, or of its negation, on variables.
fn call(alloc: Global, pred: Pred, minus: bool) -> Result<Item, Memory>
    ensures { IfOk result (λ item. item ≡ call_of minus pred) }
{
    let args = variables(alloc, pred.arity)?;
    let name = pred.name;
    let atom = Atom { minus, name, args };
    let positive = true;
    Ok(Item::Call(Lit { positive, atom }))
}

/// The denial that keeps a predicate apart from its negation: `:- p(V0, ..), -p(V0, ..).`
pub fn denial_of(alloc: Global, pred: Pred) -> Result<Clause, Memory>
    ensures { IfOk result (λ clause. clause ≡ denial_of pred) }
{
    let mut body = Items::new(alloc);
    body.push(call(alloc, pred, false)?)?;
    body.push(call(alloc, pred, true)?)?;
    let head = None;
    let vars = pred.arity;
    Ok(Clause { head, body, vars })
}

/// Puts a denial at the end for each predicate with `-`.
pub(crate) fn push_denials(
    alloc: Global,
    clauses: &mut Clauses,
    preds: &[Pred],
) -> Result<(), Memory>
    ensures { OnOk result (clauses.new ≡ clauses.old ++ map denial_of (filter (λ p. p.minus) preds.now)) }
{
    for pred in preds {
        if pred.minus {
            let denial = denial_of(alloc, *pred)?;
            clauses.push(denial)?;
        }
    }
    Ok(())
}
