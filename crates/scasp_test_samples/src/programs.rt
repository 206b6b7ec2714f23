//! Programs from tables, and what belongs to them.
ghost use Rattle.std.specs.Prelude.{◌≡◌, [], ◌∷◌, IfOk, map};
ghost use Rattle.scasp_test_samples.specs.Samples.{atom_of, literal_of, head_of, body_of, clause_of, query_of, pred_of_name, entry_of};

use crate::names::Name;
use scasp_name::{Memory, NameId};
use scasp_syntax::{
    Atom, Clause, Clauses, Item, Items, Lit, Pred, PredMap, PredMaps, Program, Queries, Query,
    RuleList, Sequence, Term, Terms,
};
use std::alloc::Global;

/// An atom, and whether it stands without `not`.
pub type Literal = (bool, Name);

/// The head of a rule, or none for a denial, and its body.
pub type Rule<'a> = (Option<Name>, &'a [Literal]);

/// The list of one item.
pub fn one<T: Drop>(alloc: Global, item: T) -> Result<Sequence<T>, Memory>
    ensures { IfOk result (λ list. list ≡ item ∷ []) }
{
    let mut list = Sequence::new(alloc);
    list.push(item)?;
    Ok(list)
}

/// The predicate of an atom.
pub fn pred(name: Name) -> Pred
    ensures { result ≡ pred_of_name name }
{
    Pred {
        minus: false,
        name: NameId::new(name.place),
        arity: if name.has_argument { 1 } else { 0 },
    }
}

/// The atom of this name.
pub fn atom(alloc: Global, name: Name) -> Result<Atom, Memory>
    ensures { IfOk result (λ made. made ≡ atom_of name) }
{
    let mut args = Terms::new(alloc);
    if name.has_argument {
        args.push(Term::App(NameId::new(9), Terms::new(alloc)))?;
    }
    Ok(Atom {
        minus: false,
        name: NameId::new(name.place),
        args,
    })
}

/// The literal.
pub fn literal(alloc: Global, written: Literal) -> Result<Lit, Memory>
    ensures { IfOk result (λ made. made ≡ literal_of written) }
{
    let (positive, name) = written;
    let atom = atom(alloc, name)?;
    Ok(Lit { positive, atom })
}

/// The body of these literals.
pub fn body(alloc: Global, literals: &[Literal]) -> Result<Items, Memory>
    ensures { IfOk result (λ items. items ≡ body_of literals.now) }
{
    let mut items = Sequence::new(alloc);
    for written in literals {
        items.push(Item::Call(literal(alloc, *written)?))?;
    }
    Ok(items)
}

/// The head of a rule, or none.
fn head(alloc: Global, name: Option<Name>) -> Result<Option<Atom>, Memory>
    ensures { IfOk result (λ made. made ≡ head_of name) }
{
    match name {
        Some(name) => Ok(Some(atom(alloc, name)?)),
        None => Ok(None),
    }
}

fn clauses(alloc: Global, rules: &[Rule]) -> Result<Clauses, Memory>
    ensures { IfOk result (λ all. all ≡ map (λ r. clause_of r.0 r.1.now) rules.now) }
{
    let mut all = Sequence::new(alloc);
    for (name, literals) in rules {
        all.push(Clause {
            head: head(alloc, *name)?,
            body: body(alloc, literals)?,
            vars: 0,
        })?;
    }
    Ok(all)
}

fn queries(alloc: Global, bodies: &[&[Literal]]) -> Result<Queries, Memory>
    ensures { IfOk result (λ all. all ≡ map (λ b. query_of b.now) bodies.now) }
{
    let mut all = Sequence::new(alloc);
    for literals in bodies {
        all.push(Query {
            body: body(alloc, literals)?,
            names: Sequence::new(alloc),
        })?;
    }
    Ok(all)
}

/// The program of these rules and denials, with a query for each of the bodies.
pub fn program(alloc: Global, rules: &[Rule], bodies: &[&[Literal]]) -> Result<Program, Memory>
    ensures clauses { IfOk result (λ made. made.clauses ≡ map (λ r. clause_of r.0 r.1.now) rules.now) }
    ensures queries { IfOk result (λ made. made.queries ≡ map (λ b. query_of b.now) bodies.now) }
{
    let clauses = clauses(alloc, rules)?;
    let queries = queries(alloc, bodies)?;
    let abducibles = Sequence::new(alloc);
    Ok(Program {
        clauses,
        queries,
        abducibles,
    })
}

/// The map of these entries: a predicate's atom, its level, and whether its sign is `+`.
pub fn map_of(alloc: Global, entries: &[(Name, u64, bool)]) -> Result<PredMaps, Memory>
    ensures { IfOk result (λ made. made ≡ map entry_of entries.now) }
{
    let mut maps = Sequence::new(alloc);
    for (name, level, plus) in entries {
        maps.push(PredMap {
            pred: pred(*name),
            level: *level,
            plus: *plus,
        })?;
    }
    Ok(maps)
}

/// The list of these numbers of clauses.
pub fn numbers(alloc: Global, given: &[u64]) -> Result<RuleList, Memory>
    ensures { IfOk result (λ list. list ≡ given.now) }
{
    let mut list = Sequence::new(alloc);
    for number in given {
        list.push(*number)?;
    }
    Ok(list)
}
