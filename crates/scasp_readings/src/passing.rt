//! Tests of constraints as bindings read them.
ghost use Rattle.std.specs.Prelude.{◌≡◌, Bool, IfOk};
ghost use Rattle.std.specs.List.{list_any};
ghost use Rattle.scasp_readings.specs.Readings.{has, reading, tests_number};
ghost use Rattle.scasp_search_rules.specs.Successors.Reading.{among, con_vars};
ghost use Rattle.scasp_search_rules.specs.Successors.Splits.{is_number_test};
ghost use Rattle.scasp_syntax.specs.declared.con.Con.{Con as ThisCon};
ghost use Rattle.scasp_unify.specs.Solving.{sub_of};

use crate::constraints::con_vars;
use scasp_bound::Bound;
use scasp_list::Memory;
use scasp_syntax::{Con, Term};
use std::alloc::Global;

/// A test of constraints.
pub trait ConTest {
    ghost holds: { Self → ThisCon → Bool };

    /// Whether the constraint passes.
    fn passes(&self, alloc: Global, constraint: &Con) -> Result<bool, Memory>
        ensures { IfOk result (λ answer. answer ≡ holds self.now constraint.now) };
}

/// The variable stands in it.
#[derive(Clone, Copy)]
pub struct Has<'a> {
    pub bound: &'a Bound,
    pub x: u64,
}

impl ConTest for Has<'_> {
    ghost holds = { has };

    fn passes(&self, alloc: Global, constraint: &Con) -> Result<bool, Memory> {
        let vars = con_vars(alloc, self.bound, constraint)?;
        Ok(is_among(self.x, vars.as_slice()))
    }
}

/// It is the test that the variable is a number.
#[derive(Clone, Copy)]
pub struct TestsNumber<'a> {
    pub bound: &'a Bound,
    pub x: u64,
}

impl ConTest for TestsNumber<'_> {
    ghost holds = { tests_number };

    fn passes(&self, alloc: Global, constraint: &Con) -> Result<bool, Memory> {
        is_number_test(alloc, self.bound, self.x, constraint)
    }
}

/// Whether the variable is among these.
pub fn is_among(x: u64, xs: &[u64]) -> bool
    ensures { result ≡ among x xs.now }
{
    xs.iter().any(|y| x == *y)
}

/// Whether the constraint is the test that the variable is a number.
fn is_number_test(alloc: Global, bound: &Bound, x: u64, constraint: &Con) -> Result<bool, Memory>
    ensures { IfOk result (λ is. is ≡ is_number_test (reading bound.now.now) x constraint.now) }
{
    match constraint {
        Con::Num(term) => match bound.read(alloc, term)? {
            Term::Var(y) => Ok(y == x),
            Term::Num(_) | Term::App(_, _) => Ok(false),
        },
        Con::Eq(_, _) | Con::Neq(_, _) | Con::NotShape(_, _, _) | Con::NotNum(_) | Con::Row(_) => {
            Ok(false)
        }
    }
}

/// Whether one of the constraints passes.
fn any_of<T: ConTest>(alloc: Global, test: &T, constraints: &[Con]) -> Result<bool, Memory>
    ensures { IfOk result (λ answer. answer ≡ list_any (T.holds test.now) constraints.now) }
{
    for constraint in constraints {
        if test.passes(alloc, constraint)? {
            return Ok(true);
        }
    }
    Ok(false)
}

/// Whether the variable stands in one of the constraints.
pub fn stands_in(alloc: Global, bound: &Bound, x: u64, constraints: &[Con]) -> Result<bool, Memory>
    ensures { IfOk result (λ stands. stands ≡ list_any (λ c. among x (con_vars (sub_of bound.now.now) c)) constraints.now) }
{
    any_of(alloc, &Has { bound, x }, constraints)
}

/// Whether the test that the variable is a number is among the constraints.
pub fn has_number_test(
    alloc: Global,
    bound: &Bound,
    x: u64,
    constraints: &[Con],
) -> Result<bool, Memory>
    ensures { IfOk result (λ has. has ≡ list_any (is_number_test (reading bound.now.now) x) constraints.now) }
{
    any_of(alloc, &TestsNumber { bound, x }, constraints)
}
