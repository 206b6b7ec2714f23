//! Cases of covers that begin and end.
ghost use Rattle.std.specs.Prelude.{◌≡◌, ◌∷◌, [], OnOk};
ghost use Rattle.scasp_hint.specs.Satisfying.{sat};
ghost use Rattle.scasp_search_rules.specs.Successors.Calls.{vars_of_clause};
ghost use Rattle.scasp_search_rules.specs.Successors.Cases.{begin_cases, check_clause, close_case};
ghost use Rattle.scasp_search_rules.specs.Successors.Items.{with_line};
ghost use Rattle.scasp_search_rules.specs.Successors.Regions.{before};
ghost use Rattle.scasp_search_rules.specs.Successors.Variables.{next_variable, with_new};
ghost use Rattle.scasp_search_state.specs.Choices.{Forks};
ghost use Rattle.scasp_search_steps.specs.Cases.{cases_inside};

use crate::leaves::try_leaves;
use scasp_list::Memory;
use scasp_search_calls::vars_of_clause;
use scasp_search_constraints::SearchErr;
use scasp_search_rules::{Kind, Line, Task};
use scasp_search_state::{Begun, Situation};
use scasp_syntax::Program;
use std::alloc::Global;

/// The case is void.
fn be_void<M: Situation>(at: &mut M) -> Result<(), Memory>
    ensures now { OnOk result (M.now at.new ≡ before (Task.Close ∷ []) (with_line (M.now at.old) Line.Void)) }
    ensures points { OnOk result (M.points at.new ≡ M.points at.old) }
{
    at.tell(Line::Void)?;
    at.put(Task::Close)
}

/// Whether a state comes of the case of the innermost cover, which begins: void where no valuation meets its context, and else
/// its leaves.
#[tactic(auto, using(crate::proofs::CaseLemmas::none_inside, crate::proofs::CaseLemmas::inside_asks, crate::proofs::CaseLemmas::inside_leaves, crate::proofs::CaseLemmas::inside_void))]
fn cases_inside<M: Situation>(
    alloc: Global,
    program: &Program,
    at: &mut M,
) -> Result<bool, SearchErr>
    ensures { Forks program.now (cases_inside program.now sat (M.now at.old) (M.now at.old).covers) (M.now at.new) (M.points at.new) (M.points at.old) result }
{
    if at.depth() == 0 {
        return Ok(false);
    }
    match at.asks_context(alloc) {
        Err(SearchErr::Overflow) => Err(SearchErr::Overflow),
        Err(SearchErr::Memory) => Err(SearchErr::Memory),
        Ok(true) => {
            if try_leaves(alloc, program, at, 0)? {
                Ok(true)
            } else {
                Ok(false)
            }
        }
        Ok(false) => {
            be_void(at)?;
            Ok(true)
        }
    }
}

/// Whether a state comes of the cases of the clause, whose variables are numbered from `first` on; the first is the present one, and
/// the others wait.
pub fn begin_cases<M: Situation>(
    alloc: Global,
    program: &Program,
    at: &mut M,
    begun: Begun,
) -> Result<bool, SearchErr>
    ensures { Forks program.now (begin_cases program.now sat (M.now at.old) begun.clause begun.first begun.checks_head) (M.now at.new) (M.points at.new) (M.points at.old) result }
{
    at.open_cover(alloc, program, begun)?;
    cases_inside(alloc, program, at)
}

/// The clause is to be checked, and its variables are new.
fn begin_check<M: Situation>(program: &Program, at: &mut M, clause: u64) -> Result<(), Memory>
    ensures now { OnOk result (M.now at.new ≡ with_line (with_new (M.now at.old) Kind.Matched 0 (vars_of_clause program.now clause)) (Line.Check clause (next_variable (M.now at.old)))) }
    ensures points { OnOk result (M.points at.new ≡ M.points at.old) }
{
    let first = at.next_variable();
    at.make(Kind::Matched, 0, vars_of_clause(program, clause))?;
    at.tell(Line::Check { clause, first })
}

/// Whether a state comes of the check of the clause; the first is the present one, and the others wait.
pub fn check_clause<M: Situation>(
    alloc: Global,
    program: &Program,
    at: &mut M,
    clause: u64,
    checks_head: bool,
) -> Result<bool, SearchErr>
    ensures { Forks program.now (check_clause program.now sat (M.now at.old) clause checks_head) (M.now at.new) (M.points at.new) (M.points at.old) result }
{
    let first = at.next_variable();
    begin_check(program, at, clause)?;
    let begun = Begun {
        clause,
        first,
        checks_head,
    };
    begin_cases(alloc, program, at, begun)
}

/// Whether a state comes of the end of the case of the innermost cover: its last remainder, whose first leaf is the present state and
/// whose others wait, or its end.
#[tactic(auto, using(crate::proofs::CaseLemmas::none_closed, crate::proofs::CaseLemmas::ended))]
pub fn close_case<M: Situation>(
    alloc: Global,
    program: &Program,
    at: &mut M,
) -> Result<bool, SearchErr>
    ensures { Forks program.now (close_case program.now sat (M.now at.old) (M.now at.old).covers) (M.now at.new) (M.points at.new) (M.points at.old) result }
{
    if at.depth() == 0 {
        return Ok(false);
    }
    let waits = at.waits();
    at.close_case(alloc)?;
    if waits {
        cases_inside(alloc, program, at)
    } else {
        Ok(true)
    }
}
