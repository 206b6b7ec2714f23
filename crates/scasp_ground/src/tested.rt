//! The tests of a clause.
ghost use Rattle.std.specs.Prelude.{◌≡◌, IfOk};
ghost use Rattle.scasp_ground.specs.Bounded.{all_tested, body_tests, tested};
ghost use Rattle.scasp_ground.specs.Told.{Tests};
ghost use Rattle.scasp_syntax.specs.Constraints.{has_shape, is_number};
ghost use Rattle.scasp_syntax.specs.Same.{same_tm};
ghost use Rattle.scasp_syntax.specs.Tm.{items};
ghost use Rattle.scasp_syntax.specs.Values.{giving, under};
ghost use Rattle.scasp_syntax.specs.View.{tm_of};

use crate::error::GroundErr;
use scasp_checker_answer::bounded_sum;
use scasp_list::{Memory, Sequence};
use scasp_name::NameId;
use scasp_syntax::{Clause, Con, Cons, DeepCopy, FlatItem, Term, Terms, flat, instance, same};
use std::alloc::Global;

/// The tests of the clause, in the order of its flat body.
pub fn body_tests(alloc: Global, clause: &Clause) -> Result<Cons, Memory>
    ensures { IfOk result (λ tests. tests ≡ body_tests clause.now) }
{
    let body = flat(alloc, clause)?;
    let mut tests = Sequence::new(alloc);
    for item in body.as_slice() {
        match item {
            FlatItem::Call(_) => {}
            FlatItem::Test(test) => tests.push(test.copy(alloc)?)?,
        }
    }
    Ok(tests)
}

/// Whether the values meet each test, in order up to the first that they do not meet. Overflow where the sum of one of these rows is
/// past the range of the numbers; never TooLarge.
pub fn passes(alloc: Global, values: &Terms, tests: &Cons) -> Result<bool, GroundErr>
    ensures { Tests result (all_tested (giving (items values.now)) tests.now) }
{
    for con in tests.as_slice() {
        match test(alloc, values, con) {
            Ok(true) => {}
            Ok(false) => return Ok(false),
            Err(error) => return Err(error),
        }
    }
    Ok(true)
}

/// Whether the term is this name with so many arguments.
fn is_shaped(term: &Term, name: NameId, arity: u64) -> bool
    ensures { result ≡ has_shape name arity (tm_of term.now) }
{
    match term {
        Term::App(other, args) => *other == name && args.len() as u64 == arity,
        Term::Var(_) | Term::Num(_) => false,
    }
}

/// Whether the term is a number.
fn is_number(term: &Term) -> bool
    ensures { result ≡ is_number (tm_of term.now) }
{
    match term {
        Term::Num(_) => true,
        Term::Var(_) | Term::App(_, _) => false,
    }
}

/// Whether the constraint holds under the values. Overflow where it is a row whose sum is past the range of the numbers.
fn test(alloc: Global, values: &Terms, con: &Con) -> Result<bool, GroundErr>
    ensures { Tests result (tested (giving (items values.now)) con.now) }
{
    match con {
        Con::Eq(left, right) => Ok(are_equal(alloc, values, left, right)?),
        Con::Neq(left, right) => Ok(!are_equal(alloc, values, left, right)?),
        Con::NotShape(x, name, arity) => {
            let value = instance(alloc, &Term::Var(*x), values)?;
            Ok(!is_shaped(&value, *name, *arity))
        }
        Con::Num(term) => Ok(is_number(&instance(alloc, term, values)?)),
        Con::NotNum(term) => Ok(!is_number(&instance(alloc, term, values)?)),
        Con::Row(row) => match bounded_sum(values, row) {
            Ok(sum) => Ok(row.op().compares(sum.num())),
            Err(_) => Err(GroundErr::Overflow),
        },
    }
}

/// Whether the terms are equal under the values.
fn are_equal(alloc: Global, values: &Terms, left: &Term, right: &Term) -> Result<bool, Memory>
    ensures { IfOk result (λ answer. answer ≡ same_tm (under (giving (items values.now)) (tm_of left.now)) (under (giving (items values.now)) (tm_of right.now))) }
{
    let left = instance(alloc, left, values)?;
    let right = instance(alloc, right, values)?;
    same(alloc, &left, &right)
}
