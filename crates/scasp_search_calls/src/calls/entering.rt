//! Clauses, and literals that are gone into.
ghost use Rattle.std.specs.Prelude.{◌≡◌, ◌++◌, IfOk, OnOk, filter, map, not};
ghost use Rattle.scasp_search_rules.specs.Successors.Calls.{head_args, vars_of_clause, with_literal};
ghost use Rattle.scasp_syntax.specs.Programs.{pred_of, rules_of};

use crate::calls::raising::Raised;
use scasp_lines_places::all_under;
use scasp_list::Memory;
use scasp_search_rules::{CaseList, Cover, Literal, State, Task, Tasks};
use scasp_syntax::{Atom, DeepCopy, FlatItems, Lit, Program, RuleList, Terms};
use std::alloc::Global;

// ---- clauses

/// How many variables the clause of this number has.
pub fn vars_of_clause(program: &Program, clause: u64) -> u64
    ensures { result ≡ vars_of_clause program.now clause }
{
    match program.clause(clause) {
        Some(found) => found.vars,
        None => 0,
    }
}

/// The arguments of the head of the clause of this number, with its variables from `first` on.
pub fn head_args(alloc: Global, program: &Program, clause: u64, first: u64) -> Result<Terms, Memory>
    ensures { IfOk result (λ made. made ≡ head_args program.now clause first) }
{
    let Some(found) = program.clause(clause) else {
        return Ok(Terms::new(alloc));
    };
    match &found.head {
        Some(head) => all_under(alloc, &head.args, &Raised { by: first }),
        None => Ok(Terms::new(alloc)),
    }
}

/// The numbers of the rules of the atom's predicate, in order.
pub fn rules_of(alloc: Global, program: &Program, atom: &Atom) -> Result<RuleList, Memory>
    ensures { IfOk result (λ made. made ≡ rules_of program.now (pred_of atom.now)) }
{
    let mut made = RuleList::new(alloc);
    for (place, clause) in program.clauses.as_slice().iter().enumerate() {
        if clause.is_rule_of(atom.pred()) {
            made.push(place as u64 + 1)?;
        }
    }
    Ok(made)
}

// ---- literals

/// The cases that are open, but for those of plain covers.
fn cases_around(alloc: Global, covers: &[Cover]) -> Result<CaseList, Memory>
    ensures { IfOk result (λ made. made ≡ map (λ c. c.case) (filter (λ c. not c.plain) covers.now)) }
{
    let mut made = CaseList::new(alloc);
    for cover in covers {
        if !cover.plain {
            made.push(cover.case)?;
        }
    }
    Ok(made)
}

/// The state with one more literal, inside the last one that is open.
pub fn with_literal(alloc: Global, state: State, lit: &Lit) -> Result<State, Memory>
    ensures { IfOk result (λ made. made ≡ with_literal state lit.now) }
{
    let mut state = state;
    let literal = Literal {
        number: state.literals.len() as u64,
        lit: lit.copy(alloc)?,
        cases: cases_around(alloc, state.covers.as_slice())?,
        is_done: false,
        loops: false,
        is_general: false,
    };
    state.literals.push(literal)?;
    Ok(state)
}

/// Puts a task for each item at the end.
pub fn push_shows(items: FlatItems, tasks: &mut Tasks) -> Result<(), Memory>
    ensures { OnOk result (tasks.new ≡ tasks.old ++ map Task.Show items) }
{
    for item in items.into_vec() {
        tasks.push(Task::Show(item))?;
    }
    Ok(())
}
