//! Literals that are gone into, and covers of rules.
ghost use Rattle.std.specs.Prelude.{◌≡◌, ◌++◌, ◌∷◌, [], IfOk, OnOk, length, map};
ghost use Rattle.scasp_search_rules.specs.Successors.Calls.{by_no_rule, by_rule, covered, entered, vars_of_clause};
ghost use Rattle.scasp_search_rules.specs.Successors.Items.{body_of};
ghost use Rattle.scasp_search_state.specs.Choices.{Forked, left};
ghost use Rattle.scasp_search_steps.specs.Foresight.{ForkedIf};
ghost use Rattle.scasp_unify.specs.Negations.{new_parts};

use crate::clauses::{body_length, next_rule};
use crate::foresight::{Foresees, go_behind};
use scasp_lines_places::new_parts;
use scasp_list::Memory;
use scasp_search_calls::{rules_of, vars_of_clause};
use scasp_search_rules::{Kind, Line, Task, Tasks};
use scasp_search_state::{Choice, Situation};
use scasp_syntax::{Atom, DeepCopy, Lit, Program};
use std::alloc::Global;

// ---- a literal by a rule

fn rule_line(
    alloc: Global,
    program: &Program,
    atom: &Atom,
    rule: u64,
    first: u64,
) -> Result<Line, Memory>
    ensures { IfOk result (λ made. made ≡ Line.Pos atom.now rule (new_parts first (vars_of_clause program.now rule)) (length (body_of program.now rule first))) }
{
    Ok(Line::Pos {
        atom: atom.copy(alloc)?,
        rule,
        terms: new_parts(alloc, first, vars_of_clause(program, rule))?,
        children: body_length(alloc, program, rule)?,
    })
}

/// The literal by this rule, whose variables are new.
#[tactic(auto, using(crate::proofs::ForkLemmas::before_both))]
pub fn by_rule<M: Situation>(
    alloc: Global,
    program: &Program,
    at: &mut M,
    lit: &Lit,
    rule: u64,
) -> Result<(), Memory>
    ensures now { OnOk result (M.now at.new ≡ by_rule program.now (M.now at.old) lit.now rule) }
    ensures points { OnOk result (M.points at.new ≡ M.points at.old) }
{
    let first = at.next_variable();
    let depth = at.depth();
    let line = rule_line(alloc, program, &lit.atom, rule, first)?;
    at.make(Kind::Existential, depth, vars_of_clause(program, rule))?;
    at.tell(line)?;
    at.open_literal(alloc, lit)?;
    at.put(Task::Leave)?;
    at.put_body(alloc, program, rule, first)?;
    at.put_equations(alloc, &lit.atom.args, program, rule, first)?;
    Ok(())
}

/// Whether a rule of the literal behind this one is left to be tried; the first one is, and the others wait.
#[tactic(auto, using(crate::proofs::ForkLemmas::first_rule, crate::proofs::ForkLemmas::last_rule))]
pub fn try_rules<M: Situation>(
    alloc: Global,
    program: &Program,
    at: &mut M,
    lit: &Lit,
    behind: u64,
) -> Result<bool, Memory>
    ensures { IfOk result (λ went. Forked program.now (left program.now (Choice.ByRules lit.now behind) (M.now at.old)) (M.now at.new) (M.points at.new) (M.points at.old) went) }
{
    let Some(rule) = next_rule(program, lit, behind) else {
        return Ok(false);
    };
    if next_rule(program, lit, rule).is_some() {
        let lit = lit.copy(alloc)?;
        at.save(Choice::ByRules { lit, behind: rule })?;
    }
    by_rule(alloc, program, at, lit, rule)?;
    Ok(true)
}

// ---- a literal by no rule

fn cover_tasks(alloc: Global, atom: &Atom, rules: &[u64]) -> Result<Tasks, Memory>
    ensures { IfOk result (λ tasks. tasks ≡ map (Task.Cover atom.now) rules.now ++ Task.Leave ∷ []) }
{
    let mut tasks = Tasks::new(alloc);
    for rule in rules {
        tasks.push(Task::Cover {
            atom: atom.copy(alloc)?,
            rule: *rule,
        })?;
    }
    tasks.push(Task::Leave)?;
    Ok(tasks)
}

/// The literal, to which no rule is to lead.
pub fn by_no_rule<M: Situation>(
    alloc: Global,
    program: &Program,
    at: &mut M,
    lit: &Lit,
) -> Result<(), Memory>
    ensures now { OnOk result (M.now at.new ≡ by_no_rule program.now (M.now at.old) lit.now) }
    ensures points { OnOk result (M.points at.new ≡ M.points at.old) }
{
    let rules = rules_of(alloc, program, &lit.atom)?;
    let line = Line::Neg {
        atom: lit.atom.copy(alloc)?,
        rules: rules.len() as u64,
    };
    let tasks = cover_tasks(alloc, &lit.atom, rules.as_slice())?;
    at.tell(line)?;
    at.open_literal(alloc, lit)?;
    at.put_all(tasks)?;
    Ok(())
}

/// Whether a rule of the literal is left to be tried; the first one is, and the others wait. Where they may, rules in front that
/// come to nothing are left out.
#[tactic(auto, using(crate::proofs::ForkLemmas::behind_forked))]
fn by_rules<M: Foresees>(
    alloc: Global,
    program: &Program,
    at: &mut M,
    lit: &Lit,
) -> Result<bool, Memory>
    ensures { IfOk result (λ went. ForkedIf M.foresees program.now (left program.now (Choice.ByRules lit.now 0) (M.now at.old)) (M.now at.new) (M.points at.new) (M.points at.old) went) }
{
    let behind = go_behind(alloc, program, at, lit, 0)?;
    let went = try_rules(alloc, program, at, lit, behind)?;
    Ok(went)
}

/// Whether there is a state in which the literal is gone into; the first is the present one, and the others wait. Where they may,
/// states in front that come to nothing are left out.
#[tactic(auto, using(crate::proofs::ForkLemmas::one_forked))]
pub fn entered<M: Foresees>(
    alloc: Global,
    program: &Program,
    at: &mut M,
    lit: &Lit,
) -> Result<bool, Memory>
    ensures { IfOk result (λ went. ForkedIf M.foresees program.now (entered program.now (M.now at.old) lit.now) (M.now at.new) (M.points at.new) (M.points at.old) went) }
{
    if lit.positive {
        return by_rules(alloc, program, at, lit);
    }
    by_no_rule(alloc, program, at, lit)?;
    Ok(true)
}

// ---- a cover of a rule

/// The rule is not to give the atom; its variables are neither kind yet.
pub fn covered<M: Situation>(
    alloc: Global,
    program: &Program,
    at: &mut M,
    atom: &Atom,
    rule: u64,
) -> Result<(), Memory>
    ensures now { OnOk result (M.now at.new ≡ covered program.now (M.now at.old) atom.now rule) }
    ensures points { OnOk result (M.points at.new ≡ M.points at.old) }
{
    let first = at.next_variable();
    let line = Line::Rule {
        atom: atom.copy(alloc)?,
        rule,
        first,
    };
    at.make(Kind::Matched, 0, vars_of_clause(program, rule))?;
    at.tell(line)?;
    at.put_apart(alloc, &atom.args, program, rule, first)?;
    Ok(())
}
