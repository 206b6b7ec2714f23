//! Steps of the search.
ghost use Rattle.scasp_hint.specs.Satisfying.{sat};
ghost use Rattle.scasp_search_rules.specs.Successors.Search.{done, shown, step};
ghost use Rattle.scasp_search_steps.specs.Foresight.{ForksIf};

use crate::calls::call;
use crate::cases::{begin_cases, check_clause, close_case};
use crate::entering::covered;
use crate::foresight::Foresees;
use crate::tests::show_test;
use scasp_search_assuming::{
    assume, differ_terms, differ_value, equate_terms, same_shape, same_value,
};
use scasp_search_constraints::SearchErr;
use scasp_search_rules::{Line, Task};
use scasp_search_state::Begun;
use scasp_syntax::{FlatItem, Program};
use std::alloc::Global;

/// An item is to be true.
fn shown<M: Foresees>(
    alloc: Global,
    program: &Program,
    at: &mut M,
    item: &FlatItem,
) -> Result<bool, SearchErr>
    ensures { ForksIf M.foresees program.now (shown program.now sat (M.now at.old) item.now) (M.now at.new) (M.points at.new) (M.points at.old) result }
{
    match item {
        FlatItem::Call(lit) => call(alloc, program, at, lit),
        FlatItem::Test(test) => show_test(alloc, at, test),
    }
}

/// What comes of the task, in the state whose work is the rest.
#[tactic(auto, using(crate::proofs::ForkLemmas::forks_if, crate::proofs::ForkLemmas::leaves_forked))]
fn done<M: Foresees>(
    alloc: Global,
    program: &Program,
    at: &mut M,
    task: Task,
) -> Result<bool, SearchErr>
    ensures { ForksIf M.foresees program.now (done program.now sat (M.now at.old) task) (M.now at.new) (M.points at.new) (M.points at.old) result }
{
    match task {
        Task::Show(item) => shown(alloc, program, at, &item),
        Task::Equate(left, right) => equate_terms(alloc, at, left, right),
        Task::Assume(constraint) => assume(alloc, at, &constraint),
        Task::Differ(pairs, aim) => differ_terms(alloc, at, pairs, aim),
        Task::Become { x, term, rest, aim } => same_value(alloc, at, x, &term, rest, aim),
        Task::Avoid {
            x,
            value,
            rest,
            aim,
        } => differ_value(alloc, at, x, value, rest, aim),
        Task::Shape {
            x,
            name,
            args,
            rest,
            aim,
        } => same_shape(alloc, at, x, name, &args, rest, aim),
        Task::Cover { atom, rule } => {
            covered(alloc, program, at, &atom, rule)?;
            Ok(true)
        }
        Task::Check {
            clause,
            checks_head,
        } => check_clause(alloc, program, at, clause, checks_head),
        Task::Begin {
            clause,
            first,
            checks_head,
        } => {
            let begun = Begun {
                clause,
                first,
                checks_head,
            };
            begin_cases(alloc, program, at, begun)
        }
        Task::Void => {
            at.tell(Line::Void)?;
            Ok(true)
        }
        Task::Leave => {
            at.leave_literal()?;
            Ok(true)
        }
        Task::Close => close_case(alloc, program, at),
    }
}

/// Whether a state comes of the first task; the first is the present one then, and the others wait. Where they may, states in
/// front that come to nothing are left out. Overflow only where a list that the step asks overflows.
#[tactic(auto, using(crate::proofs::StepLemmas::task_done, crate::proofs::ForkLemmas::no_task))]
pub fn step<M: Foresees>(alloc: Global, program: &Program, at: &mut M) -> Result<bool, SearchErr>
    ensures { ForksIf M.foresees program.now (step program.now sat (M.now at.old)) (M.now at.new) (M.points at.new) (M.points at.old) result }
{
    match at.take_task()? {
        Some(task) => done(alloc, program, at, task),
        None => Ok(false),
    }
}
