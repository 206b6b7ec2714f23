//! How a constraint parts a case.
ghost use Rattle.std.specs.Prelude.{◌≡◌, IfOk};
ghost use Rattle.scasp_search_rules.specs.Successors.Reading.{count_from};
ghost use Rattle.scasp_search_rules.specs.Successors.Splits.{equation_parting, parted, shape_line};
ghost use Rattle.scasp_unify.specs.Negations.{new_parts};

use scasp_list::Memory;
use scasp_name::NameId;
use scasp_search_rules::Parting;
use scasp_search_terms::constraints::push_all_vars;
use scasp_search_terms::forms::{negated, numbered_parts};
use scasp_search_terms::splits::{parting, shape_parting};
use scasp_syntax::{Con, Term, Terms, VarList, copy_terms};
use std::alloc::Global;

/// How an equation parts a case; a variable against a name does so by the shape.
fn equation_parting(
    alloc: Global,
    left: &Term,
    right: &Term,
    equation: &Con,
) -> Result<Parting, Memory>
    requires { equation.now ≡ Con.Eq left.now right.now }
    ensures { IfOk result (λ made. made ≡ equation_parting left.now right.now) }
{
    match (left, right) {
        (Term::Var(x), Term::App(name, parts)) => shape_parting(alloc, *x, *name, parts, equation),
        (Term::Var(_), Term::Var(_) | Term::Num(_)) | (Term::Num(_) | Term::App(_, _), _) => {
            parting(alloc, equation, negated(alloc, 0, equation)?)
        }
    }
}

/// The constraint of the tree's line where a variable has not this shape: a name without arguments is written as it
/// stands, any other shape with its parts.
fn shape_line(x: u64, name: NameId, arity: u64, parts: Terms) -> Con
    ensures { result ≡ shape_line x name arity parts }
{
    if arity == 0 {
        Con::NotShape(x, name, 0)
    } else {
        Con::Neq(Term::Var(x), Term::App(name, parts))
    }
}

/// The variables that new parts are.
#[tactic(auto, using(scasp_search_constraints::proofs::AssumingLemmas::PartLemmas::parts_counted))]
fn part_vars(alloc: Global, first: u64, count: u64, parts: &Terms) -> Result<VarList, Memory>
    requires { parts.now ≡ new_parts first count }
    ensures { IfOk result (λ vars. vars ≡ count_from first count) }
{
    let mut vars = VarList::new(alloc);
    push_all_vars(parts, &mut vars)?;
    Ok(vars)
}

/// A variable that has not this shape, or has it with new parts.
fn shape_excluded(
    alloc: Global,
    first: u64,
    x: u64,
    name: NameId,
    arity: u64,
) -> Result<Parting, Memory>
    ensures { IfOk result (λ made. made ≡ parted first (Con.NotShape x name arity)) }
{
    let parts = numbered_parts(alloc, first, arity)?;
    let vars = part_vars(alloc, first, arity, &parts)?;
    let line = shape_line(x, name, arity, copy_terms(alloc, &parts)?);
    Ok(Parting {
        here: Con::NotShape(x, name, arity),
        line,
        there: Con::Eq(Term::Var(x), Term::App(name, parts)),
        parts_here: VarList::new(alloc),
        parts_there: vars,
    })
}

/// How a constraint parts a case, where the variables from `first` on are new.
pub(crate) fn parted(alloc: Global, first: u64, constraint: &Con) -> Result<Parting, Memory>
    ensures { IfOk result (λ made. made ≡ parted first constraint.now) }
{
    match constraint {
        Con::Eq(left, right) => equation_parting(alloc, left, right, constraint),
        Con::NotShape(x, name, arity) => shape_excluded(alloc, first, *x, *name, *arity),
        Con::Neq(_, _) | Con::Num(_) | Con::NotNum(_) | Con::Row(_) => {
            parting(alloc, constraint, negated(alloc, first, constraint)?)
        }
    }
}
