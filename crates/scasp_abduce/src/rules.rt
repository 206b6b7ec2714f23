//! The two rules of a choice.
ghost use Rattle.std.specs.Prelude.{◌≡◌, ◌++◌, IfOk, OnOk};
ghost use Rattle.scasp_abduce.specs.Translation as spec;
ghost use Rattle.scasp_syntax.specs.Denials.{variables_from};

use scasp_list::Memory;
use scasp_syntax::{Atom, Clause, Clauses, Item, Items, Lit, Pred, Term, Terms};
use std::alloc::Global;

/// So many variables, from 0 on.
fn variables(alloc: Global, count: u64) -> Result<Terms, Memory>
    ensures { IfOk result (λ terms. terms ≡ variables_from 0 count) }
{
    let mut terms = Terms::new(alloc);
    for x in 0..count {
        terms.push(Term::Var(x))?;
    }
    Ok(terms)
}

/// The predicate's atom with these arguments.
fn atom_of(pred: Pred, args: Terms) -> Atom
    ensures { result ≡ spec.atom_of pred args }
{
    Atom {
        minus: pred.minus,
        name: pred.name,
        args,
    }
}

/// `p(V0, ..) :- not q(V0, ..).`
fn unless(alloc: Global, pred: Pred, other: Pred) -> Result<Clause, Memory>
    ensures { IfOk result (λ clause. clause ≡ spec.unless pred other) }
{
    let atom = atom_of(other, variables(alloc, pred.arity)?);
    let positive = false;
    let mut body = Items::new(alloc);
    body.push(Item::Call(Lit { positive, atom }))?;
    let head = Some(atom_of(pred, variables(alloc, pred.arity)?));
    let vars = pred.arity;
    Ok(Clause { head, body, vars })
}

/// Puts the two rules by which exactly one of the predicates is true at the end of the clauses.
pub(crate) fn push_choice(
    alloc: Global,
    clauses: &mut Clauses,
    pred: Pred,
    opposite: Pred,
) -> Result<(), Memory>
    ensures { OnOk result (clauses.new ≡ clauses.old ++ spec.choice_rules (record { pred = pred; opposite = opposite })) }
{
    clauses.push(unless(alloc, pred, opposite)?)?;
    clauses.push(unless(alloc, opposite, pred)?)?;
    Ok(())
}
