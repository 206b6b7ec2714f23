//! Whether a variable stands in a term as bindings resolve it. What a variable is bound to is searched once.
ghost use Rattle.std.specs.Prelude.{◌≡◌, true, false, length, map, nat_eq, ◌++◌, ◌∷◌, IfOk, OnOk};
ghost use Rattle.std.specs.HashMap.{get};
ghost use Rattle.scasp_syntax.specs.Tm.{items};
ghost use Rattle.scasp_syntax.specs.Values.{under};
ghost use Rattle.scasp_syntax.specs.View.{tm_of};
ghost use Rattle.scasp_syntax.specs.WellFormed.{is_below};
ghost use Rattle.scasp_unify.specs.Parts.{occurs};
ghost use Rattle.scasp_bind.specs.Inside.Jobs.{Spreads, jobs_of, leave, search as search_it};
ghost use Rattle.scasp_bind.specs.Inside.Notes.{AreWithout};
ghost use Rattle.scasp_bind.specs.Inside.Soundness.{IsSoundNow, resolver};

use crate::trailed::Trailed;
use crate::walks::{note_way, noted, walk};
use scasp_list::Memory;
use scasp_syntax::{Term, Terms};
use std::alloc::Global;
use std::collections::HashMap;

/// What is still to be done, the latest first.
#[derive(Drop)]
pub(crate) enum Task<'a> {
    /// The term is to be searched.
    Search(&'a Term),
    /// All that stands in the term was searched, and has not the variable.
    Leave(&'a Term),
}

/// Whether the variable stands in the term as the bindings resolve it.
pub(crate) fn occurs_resolved<'a>(
    alloc: Global,
    store: &'a Trailed,
    x: u64,
    term: &'a Term,
) -> Result<bool, Memory>
    requires { IsSoundNow store.now × (is_below (length store.now.variables) (tm_of term.now) ≡ true) }
    ensures { IfOk result (λ found. found ≡ occurs x (under (resolver store.now) (tm_of term.now))) }
{
    let mut without: HashMap<u64, &'a Term> = HashMap::new(alloc);
    let mut tasks: Vec<Task<'a>> = Vec::new(alloc);
    tasks.push(Task::Search(term))?;
    while let Some(task) = tasks.pop() {
        match task {
            Task::Search(next) => {
                if search(store, x, &without, &mut tasks, next)? {
                    return Ok(true);
                }
            }
            Task::Leave(next) => note_way(store, &mut without, next, next)?,
        }
    }
    Ok(false)
}

/// Whether the term leads to the variable. Where it leads to a name, its arguments are to be searched, and then left;
/// not so where it leads through a variable that is known to be without the variable.
fn search<'a>(
    store: &'a Trailed,
    x: u64,
    without: &HashMap<u64, &'a Term>,
    tasks: &mut Vec<Task<'a>>,
    term: &'a Term,
) -> Result<bool, Memory>
    requires { IsSoundNow store.now × (is_below (length store.now.variables) (tm_of term.now) ≡ true) × AreWithout x (resolver store.now) (get nat_eq without.now) }
    ensures found { IfOk result (λ found. found ≡ true → occurs x (under (resolver store.now) (tm_of term.now)) ≡ true) }
    ensures spreads { IfOk result (λ found. found ≡ false → Spreads (length store.now.variables) x (resolver store.now) (tm_of term.now) (jobs_of tasks.old.items) (jobs_of tasks.new.items)) }
{
    let reached = walk(store, without, term);
    if noted(without, reached).is_some() {
        return Ok(false);
    }
    match reached {
        Term::Var(y) => Ok(*y == x),
        Term::Num(_) => Ok(false),
        Term::App(_, args) => {
            push_tasks(tasks, term, args)?;
            Ok(false)
        }
    }
}

/// The arguments are to be searched, and then the term is to be left.
fn push_tasks<'a>(tasks: &mut Vec<Task<'a>>, term: &'a Term, args: &'a Terms) -> Result<(), Memory>
    ensures { OnOk result (jobs_of tasks.new.items ≡ jobs_of tasks.old.items ++ leave (tm_of term.now) ∷ map search_it (items args.now)) }
{
    tasks.push(Task::Leave(term))?;
    for arg in args.as_slice() {
        tasks.push(Task::Search(arg))?;
    }
    Ok(())
}
