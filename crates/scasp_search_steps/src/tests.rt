//! Tests that are to be true.
ghost use Rattle.std.specs.Prelude.{◌≡◌, ◌++◌, ◌∷◌, [], IfOk, OnOk, true};
ghost use Rattle.scasp_hint.specs.Satisfying.{sat};
ghost use Rattle.scasp_search_rules.specs.Successors.Assumptions.{assume_all};
ghost use Rattle.scasp_search_rules.specs.Successors.Items.{differ_item, number_tests, row_item, show_test, test_item};
ghost use Rattle.scasp_search_rules.specs.Successors.Regions.{before};
ghost use Rattle.scasp_search_state.specs.Going.{Goes};
ghost use Rattle.scasp_search_steps.specs.Tests.{is_assumed};

use scasp_list::Memory;
use scasp_num::Row;
use scasp_search_assuming::{assume, assume_all, is_general};
use scasp_search_constraints::SearchErr;
use scasp_search_rules::{Aim, Line, Pair, Pairs, Task};
use scasp_search_state::Situation;
use scasp_syntax::{Con, Cons, DeepCopy, Term};
use std::alloc::Global;

/// The terms are to differ.
fn put_difference<M: Situation>(
    alloc: Global,
    at: &mut M,
    left: &Term,
    right: &Term,
) -> Result<(), Memory>
    ensures now { OnOk result (M.now at.new ≡ before (Task.Differ (record { left = left.now; right = right.now } ∷ []) Aim.Test ∷ []) (M.now at.old)) }
    ensures points { OnOk result (M.points at.new ≡ M.points at.old) }
{
    let pair = Pair {
        left: left.copy(alloc)?,
        right: right.copy(alloc)?,
    };
    let mut pairs = Pairs::new(alloc);
    pairs.push(pair)?;
    at.put(Task::Differ(pairs, Aim::Test))
}

/// Without universal variables a disequation is assumed, with them its terms are to differ.
#[tactic(auto, using(crate::proofs::TestLemmas::differ_put))]
fn differ_item<M: Situation>(
    alloc: Global,
    at: &mut M,
    left: &Term,
    right: &Term,
    test: &Con,
) -> Result<bool, SearchErr>
    requires { test.now ≡ Con.Neq left.now right.now }
    ensures now { Goes result (differ_item sat (M.now at.old) left.now right.now) (M.now at.new) }
    ensures points { IfOk result (λ _. M.points at.new ≡ M.points at.old) }
{
    let general = is_general(alloc, at, test)?;
    if general {
        put_difference(alloc, at, left, right)?;
        Ok(true)
    } else {
        assume(alloc, at, test)
    }
}

/// That each variable of a row is a number, and then the row.
fn row_tests(alloc: Global, row: &Row) -> Result<Cons, Memory>
    ensures { IfOk result (λ tests. tests ≡ number_tests row.now ++ Con.Row row.now ∷ []) }
{
    let mut tests = Cons::new(alloc);
    for coeff in row.coeffs().as_slice() {
        tests.push(Con::Num(Term::Var(coeff.x)))?;
    }
    tests.push(Con::Row(row.clone()?))?;
    Ok(tests)
}

/// Each variable of a row is a number, and the row holds.
fn row_of_numbers<M: Situation>(alloc: Global, at: &mut M, row: &Row) -> Result<bool, SearchErr>
    ensures now { Goes result (assume_all sat (number_tests row.now ++ Con.Row row.now ∷ []) (M.now at.old)) (M.now at.new) }
    ensures points { IfOk result (λ _. M.points at.new ≡ M.points at.old) }
{
    let tests = row_tests(alloc, row)?;
    assume_all(alloc, at, tests.as_slice())
}

/// Without universal variables each variable of a row is a number first.
fn row_item<M: Situation>(
    alloc: Global,
    at: &mut M,
    row: &Row,
    test: &Con,
) -> Result<bool, SearchErr>
    requires { test.now ≡ Con.Row row.now }
    ensures now { Goes result (row_item sat (M.now at.old) row.now) (M.now at.new) }
    ensures points { IfOk result (λ _. M.points at.new ≡ M.points at.old) }
{
    let general = is_general(alloc, at, test)?;
    if general {
        assume(alloc, at, test)
    } else {
        row_of_numbers(alloc, at, row)
    }
}

/// A test that is assumed, whatever variables it has.
fn assumed_item<M: Situation>(alloc: Global, at: &mut M, test: &Con) -> Result<bool, SearchErr>
    requires { is_assumed test.now ≡ true }
    ensures now { Goes result (test_item sat (M.now at.old) test.now) (M.now at.new) }
    ensures points { IfOk result (λ _. M.points at.new ≡ M.points at.old) }
{
    assume(alloc, at, test)
}

/// The terms are to be equal.
fn put_equation<M: Situation>(
    alloc: Global,
    at: &mut M,
    left: &Term,
    right: &Term,
) -> Result<(), Memory>
    ensures now { OnOk result (M.now at.new ≡ before (Task.Equate left.now right.now ∷ []) (M.now at.old)) }
    ensures points { OnOk result (M.points at.new ≡ M.points at.old) }
{
    let task = Task::Equate(left.copy(alloc)?, right.copy(alloc)?);
    at.put(task)
}

fn test_item<M: Situation>(alloc: Global, at: &mut M, test: &Con) -> Result<bool, SearchErr>
    ensures now { Goes result (test_item sat (M.now at.old) test.now) (M.now at.new) }
    ensures points { IfOk result (λ _. M.points at.new ≡ M.points at.old) }
{
    match test {
        Con::Eq(left, right) => {
            put_equation(alloc, at, left, right)?;
            Ok(true)
        }
        Con::Neq(left, right) => differ_item(alloc, at, left, right, test),
        Con::NotShape(_, _, _) | Con::Num(_) | Con::NotNum(_) => assumed_item(alloc, at, test),
        Con::Row(row) => row_item(alloc, at, row, test),
    }
}

/// Whether there is a state in which a test is to be true; it is the present one then.
pub fn show_test<M: Situation>(alloc: Global, at: &mut M, test: &Con) -> Result<bool, SearchErr>
    ensures now { Goes result (show_test sat (M.now at.old) test.now) (M.now at.new) }
    ensures points { IfOk result (λ _. M.points at.new ≡ M.points at.old) }
{
    at.tell(Line::Test(test.copy(alloc)?))?;
    test_item(alloc, at, test)
}
