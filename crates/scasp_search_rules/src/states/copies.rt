//! Copies.
ghost use Rattle.std.specs.Prelude.{◌≡◌, IfOk};

use crate::states::covers::{Cover, Remainder};
use crate::states::lines::Line;
use crate::states::state::{Bindings, Literal, Made, State};
use crate::states::tasks::{Pair, Task};
use scasp_name::Memory;
use scasp_syntax::{DeepCopy, copy_terms};
use scasp_unify::Binding;
use std::alloc::Global;

impl DeepCopy for Made {
    fn copy(&self, _alloc: Global) -> Result<Made, Memory> {
        Ok(*self)
    }
}

/// A copy of a binding.
pub fn copy_binding(alloc: Global, binding: &Binding) -> Result<Binding, Memory>
    ensures { IfOk result (λ copied. copied ≡ binding.now) }
{
    Ok(Binding {
        x: binding.x,
        term: binding.term.copy(alloc)?,
    })
}

/// Copies of bindings.
pub fn copy_bindings(alloc: Global, bindings: &Bindings) -> Result<Bindings, Memory>
    ensures { IfOk result (λ copied. copied ≡ bindings.now) }
{
    let mut copied = Bindings::new(alloc);
    for binding in bindings.as_slice() {
        copied.push(copy_binding(alloc, binding)?)?;
    }
    Ok(copied)
}

fn copy_equation(alloc: Global, equation: &Option<Binding>) -> Result<Option<Binding>, Memory>
    ensures { IfOk result (λ copied. copied ≡ equation.now) }
{
    match equation {
        Some(binding) => Ok(Some(copy_binding(alloc, binding)?)),
        None => Ok(None),
    }
}

impl DeepCopy for Pair {
    fn copy(&self, alloc: Global) -> Result<Pair, Memory> {
        Ok(Pair {
            left: self.left.copy(alloc)?,
            right: self.right.copy(alloc)?,
        })
    }
}

impl DeepCopy for Line {
    fn copy(&self, alloc: Global) -> Result<Line, Memory> {
        match self {
            Line::Pos {
                atom,
                rule,
                terms,
                children,
            } => Ok(Line::Pos {
                atom: atom.copy(alloc)?,
                rule: *rule,
                terms: copy_terms(alloc, terms)?,
                children: *children,
            }),
            Line::Neg { atom, rules } => Ok(Line::Neg {
                atom: atom.copy(alloc)?,
                rules: *rules,
            }),
            Line::Loop { lit, literal } => Ok(Line::Loop {
                lit: lit.copy(alloc)?,
                literal: *literal,
            }),
            Line::Seen { lit, literal } => Ok(Line::Seen {
                lit: lit.copy(alloc)?,
                literal: *literal,
            }),
            Line::Test(constraint) => Ok(Line::Test(constraint.copy(alloc)?)),
            Line::Rule { atom, rule, first } => Ok(Line::Rule {
                atom: atom.copy(alloc)?,
                rule: *rule,
                first: *first,
            }),
            Line::Check { clause, first } => Ok(Line::Check {
                clause: *clause,
                first: *first,
            }),
            Line::Split { constraint, parts } => Ok(Line::Split {
                constraint: constraint.copy(alloc)?,
                parts: parts.copy(alloc)?,
            }),
            Line::Void => Ok(Line::Void),
            Line::Leaf(item) => Ok(Line::Leaf(*item)),
            Line::Head(children) => Ok(Line::Head(*children)),
        }
    }
}

impl DeepCopy for Task {
    fn copy(&self, alloc: Global) -> Result<Task, Memory> {
        match self {
            Task::Show(item) => Ok(Task::Show(item.copy(alloc)?)),
            Task::Equate(left, right) => Ok(Task::Equate(left.copy(alloc)?, right.copy(alloc)?)),
            Task::Assume(constraint) => Ok(Task::Assume(constraint.copy(alloc)?)),
            Task::Differ(pairs, aim) => Ok(Task::Differ(pairs.copy(alloc)?, *aim)),
            Task::Become { x, term, rest, aim } => Ok(Task::Become {
                x: *x,
                term: term.copy(alloc)?,
                rest: rest.copy(alloc)?,
                aim: *aim,
            }),
            Task::Avoid {
                x,
                value,
                rest,
                aim,
            } => Ok(Task::Avoid {
                x: *x,
                value: *value,
                rest: rest.copy(alloc)?,
                aim: *aim,
            }),
            Task::Shape {
                x,
                name,
                args,
                rest,
                aim,
            } => Ok(Task::Shape {
                x: *x,
                name: *name,
                args: copy_terms(alloc, args)?,
                rest: rest.copy(alloc)?,
                aim: *aim,
            }),
            Task::Cover { atom, rule } => Ok(Task::Cover {
                atom: atom.copy(alloc)?,
                rule: *rule,
            }),
            Task::Check {
                clause,
                checks_head,
            } => Ok(Task::Check {
                clause: *clause,
                checks_head: *checks_head,
            }),
            Task::Begin {
                clause,
                first,
                checks_head,
            } => Ok(Task::Begin {
                clause: *clause,
                first: *first,
                checks_head: *checks_head,
            }),
            Task::Void => Ok(Task::Void),
            Task::Leave => Ok(Task::Leave),
            Task::Close => Ok(Task::Close),
        }
    }
}

impl DeepCopy for Remainder {
    fn copy(&self, alloc: Global) -> Result<Remainder, Memory> {
        Ok(Remainder {
            region: self.region.copy(alloc)?,
            universals: self.universals.copy(alloc)?,
            replaced: self.replaced.copy(alloc)?,
            equation: copy_equation(alloc, &self.equation)?,
        })
    }
}

impl DeepCopy for Cover {
    fn copy(&self, alloc: Global) -> Result<Cover, Memory> {
        Ok(Cover {
            clause: self.clause,
            first: self.first,
            checks_head: self.checks_head,
            plain: self.plain,
            depth: self.depth,
            case: self.case,
            universals: self.universals.copy(alloc)?,
            region: self.region.copy(alloc)?,
            waiting: self.waiting.copy(alloc)?,
            before: self.before.copy(alloc)?,
        })
    }
}

impl DeepCopy for Literal {
    fn copy(&self, alloc: Global) -> Result<Literal, Memory> {
        Ok(Literal {
            number: self.number,
            lit: self.lit.copy(alloc)?,
            cases: self.cases.copy(alloc)?,
            is_done: self.is_done,
            loops: self.loops,
            is_general: self.is_general,
        })
    }
}

impl DeepCopy for State {
    fn copy(&self, alloc: Global) -> Result<State, Memory> {
        Ok(State {
            made: self.made.copy(alloc)?,
            bound: copy_bindings(alloc, &self.bound)?,
            given: self.given.copy(alloc)?,
            covers: self.covers.copy(alloc)?,
            cases: self.cases,
            literals: self.literals.copy(alloc)?,
            lines: self.lines.copy(alloc)?,
            work: self.work.copy(alloc)?,
        })
    }
}
