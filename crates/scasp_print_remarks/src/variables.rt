//! The variables of terms. What is still to be seen waits on a stack in memory, so that no term is too deep for the
//! machine's stack.
ghost use Rattle.std.specs.Prelude.{◌≡◌, ◌++◌, ◌+◌, ◌*◌, ◌<◌, OnOk, reverse};
ghost use Rattle.scasp_print_remarks.specs.Inside.Unseen.{unseen_vars, unseen_weight};
ghost use Rattle.scasp_syntax.specs.Tm.{weight_s};
ghost use Rattle.scasp_syntax.specs.View.{tm_of, tms_of};
ghost use Rattle.scasp_unify.specs.Unification.{term_vars, terms_vars};

use scasp_list::Memory;
use scasp_syntax::{Term, VarList};

/// Puts terms before those that wait; the last of these are the next to be seen.
fn wait<'a>(unseen: &mut Vec<&'a [Term]>, terms: &'a [Term]) -> Result<(), Memory>
    ensures vars { OnOk result (unseen_vars (reverse unseen.new.items) ≡ terms_vars (tms_of terms.now) ++ unseen_vars (reverse unseen.old.items)) }
    ensures weight { OnOk result (unseen_weight (reverse unseen.new.items) ≡ (2 * weight_s (tms_of terms.now) + 1) + unseen_weight (reverse unseen.old.items)) }
{
    unseen.push(terms)?;
    Ok(())
}

/// Sees the first of some terms; its arguments wait, and then the other terms.
fn see_first<'a>(
    terms: &'a [Term],
    unseen: &mut Vec<&'a [Term]>,
    found: &mut VarList,
) -> Result<(), Memory>
    ensures vars { OnOk result (found.new ++ unseen_vars (reverse unseen.new.items) ≡ found.old ++ (terms_vars (tms_of terms.now) ++ unseen_vars (reverse unseen.old.items))) }
    ensures falls { OnOk result (unseen_weight (reverse unseen.new.items) < (2 * weight_s (tms_of terms.now) + 1) + unseen_weight (reverse unseen.old.items)) }
{
    match terms.split_first() {
        None => Ok(()),
        Some((first, others)) => {
            wait(unseen, others)?;
            match first {
                Term::Var(x) => found.push(*x),
                Term::Num(_) => Ok(()),
                Term::App(_, args) => wait(unseen, args.as_slice()),
            }
        }
    }
}

/// Puts the variables of the term behind those found before, each as often as it stands there.
pub(crate) fn push_variables(term: &Term, found: &mut VarList) -> Result<(), Memory>
    ensures { OnOk result (found.new ≡ found.old ++ term_vars (tm_of term.now)) }
{
    match term {
        Term::Var(x) => found.push(*x),
        Term::Num(_) => Ok(()),
        Term::App(_, args) => push_all_variables(args.as_slice(), found),
    }
}

fn push_all_variables(terms: &[Term], found: &mut VarList) -> Result<(), Memory>
    ensures { OnOk result (found.new ≡ found.old ++ terms_vars (tms_of terms.now)) }
{
    let mut unseen = Vec::new(found.allocator());
    wait(&mut unseen, terms)?;
    while let Some(next) = unseen.pop() {
        see_first(next, &mut unseen, found)?;
    }
    Ok(())
}
