//! Depths of the variables of a term.
ghost use Rattle.std.specs.Prelude.{◌≡◌, ◌<◌, ◌++◌, true, length, nat_eq, OnOk, OnErr};
ghost use Rattle.scasp_syntax.specs.Tm.{args_of, items};
ghost use Rattle.scasp_syntax.specs.View.{tm_of};
ghost use Rattle.scasp_syntax.specs.WellFormed.{is_below};
ghost use Rattle.scasp_unify.specs.Parts.{occurs};
ghost use Rattle.scasp_bind.specs.Depths.{Lowers, lowest};
ghost use Rattle.scasp_bind.specs.Kept.{updated};
ghost use Rattle.scasp_bind.specs.Inside.Heads.{terms_of};
ghost use Rattle.scasp_bind.specs.Inside.Lowering.{is_itself};
ghost use Rattle.scasp_bind.specs.Inside.Soundness.{GoesOn};

use crate::trailed::Trailed;
use crate::variable::Sort;
use crate::walks::push_all;
use scasp_list::Memory;
use scasp_syntax::Term;
use std::alloc::Global;

/// Lowers the variable to this depth, where its own is greater.
pub(crate) fn lower(store: &mut Trailed, x: u64, depth: u64) -> Result<(), Memory>
    requires { x < length store.old.variables }
    ensures lowered { OnOk result (store.new.variables ≡ updated x (lowest depth) store.old.variables) }
    ensures goes_on { GoesOn store.old store.new }
    ensures unchanged { OnErr result (store.new ≡ store.old) }
{
    if depth < store.get(x).depth {
        store.set_depth(x, depth)?;
    }
    Ok(())
}

/// The same of an existential; a universal stays as it is.
fn lower_existential(store: &mut Trailed, x: u64, depth: u64) -> Result<(), Memory>
    requires { x < length store.old.variables }
    ensures lowered { OnOk result (Lowers store.old.variables store.new.variables (λ y. nat_eq y x) depth) }
    ensures goes_on { GoesOn store.old store.new }
{
    match store.get(x).sort {
        Sort::Existential => lower(store, x, depth),
        Sort::Universal => Ok(()),
    }
}

/// The same of each existential in the term.
pub(crate) fn lower_term<'a>(
    alloc: Global,
    store: &mut Trailed,
    term: &'a Term,
    depth: u64,
) -> Result<(), Memory>
    requires { is_below (length store.old.variables) (tm_of term.now) ≡ true }
    ensures lowered { OnOk result (Lowers store.old.variables store.new.variables (λ y. occurs y (tm_of term.now)) depth) }
    ensures goes_on { GoesOn store.old store.new }
{
    let mut unseen: Vec<&'a Term> = Vec::new(alloc);
    unseen.push(term)?;
    while let Some(next) = unseen.pop() {
        lower_next(store, &mut unseen, next, depth)?;
    }
    Ok(())
}

/// The same of the term, if it is a variable; if it is a name, its arguments are put on the list.
fn lower_next<'a>(
    store: &mut Trailed,
    unseen: &mut Vec<&'a Term>,
    next: &'a Term,
    depth: u64,
) -> Result<(), Memory>
    requires { is_below (length store.old.variables) (tm_of next.now) ≡ true }
    ensures unseen { OnOk result (terms_of unseen.new.items ≡ terms_of unseen.old.items ++ items (args_of (tm_of next.now))) }
    ensures lowered { OnOk result (Lowers store.old.variables store.new.variables (is_itself (tm_of next.now)) depth) }
    ensures goes_on { GoesOn store.old store.new }
{
    match next {
        Term::Var(x) => lower_existential(store, *x, depth),
        Term::Num(_) => Ok(()),
        Term::App(_, args) => push_all(unseen, args),
    }
}
