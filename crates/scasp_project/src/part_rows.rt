//! The rows that say that one side of a part of a disequation is below the other.
ghost use Rattle.std.specs.Prelude.{◌≡◌};
ghost use Rattle.scasp_hint.specs.Sides.{less, minus_one, more, one};
ghost use Rattle.scasp_hint.specs.Verdicts.{left_above, left_below};
ghost use Rattle.scasp_num.specs.Linear.{Gives};
ghost use Rattle.scasp_num.specs.Number.{zero_number};
ghost use Rattle.scasp_syntax.specs.View.{tm_of};
ghost use Rattle.scasp_unify.specs.Solving.{part_of};

use scasp_num::{Op, Rat, RatPair, RatPairs, Row, RowErr};
use scasp_syntax::Term;
use scasp_unify::Part;
use std::alloc::Global;

fn zero() -> Rat
    ensures { result ≡ zero_number }
{
    match Rat::new(0, 1) {
        Ok(zero) => zero,
        Err(_) => unreachable!(),
    }
}

fn one() -> Rat
    ensures { result ≡ one }
{
    match Rat::new(1, 1) {
        Ok(one) => one,
        Err(_) => unreachable!(),
    }
}

fn minus_one() -> Rat
    ensures { result ≡ minus_one }
{
    match Rat::new(-1, 1) {
        Ok(minus_one) => minus_one,
        Err(_) => unreachable!(),
    }
}

/// The row that says that `x` is below the term. Overflow where it is too large, or the term is a compound one.
fn less(alloc: Global, x: u64, term: &Term) -> Result<Row, RowErr>
    ensures { Gives result (less x (tm_of term.now)) }
{
    let mut pairs = RatPairs::new(alloc);
    pairs.push(RatPair { x, value: one() })?;
    match term {
        Term::Var(y) => {
            pairs.push(RatPair {
                x: *y,
                value: minus_one(),
            })?;
            Row::normal(alloc, &pairs, &zero(), Op::Lt)
        }
        Term::Num(value) => Row::normal(alloc, &pairs, &value.neg(), Op::Lt),
        Term::App(_, _) => Err(RowErr::Overflow),
    }
}

/// The row that says that `x` is above the term. Overflow where it is too large, or the term is a compound one.
fn more(alloc: Global, x: u64, term: &Term) -> Result<Row, RowErr>
    ensures { Gives result (more x (tm_of term.now)) }
{
    let mut pairs = RatPairs::new(alloc);
    pairs.push(RatPair {
        x,
        value: minus_one(),
    })?;
    match term {
        Term::Var(y) => {
            pairs.push(RatPair {
                x: *y,
                value: one(),
            })?;
            Row::normal(alloc, &pairs, &zero(), Op::Lt)
        }
        Term::Num(value) => Row::normal(alloc, &pairs, value, Op::Lt),
        Term::App(_, _) => Err(RowErr::Overflow),
    }
}

/// The row that says that the left side of the part is below the right one.
pub(crate) fn left_below(alloc: Global, part: &Part) -> Result<Row, RowErr>
    ensures { Gives result (left_below (part_of part.now)) }
{
    if part.turned {
        more(alloc, part.at, &part.term)
    } else {
        less(alloc, part.at, &part.term)
    }
}

/// The row that says that the left side of the part is above the right one.
pub(crate) fn left_above(alloc: Global, part: &Part) -> Result<Row, RowErr>
    ensures { Gives result (left_above (part_of part.now)) }
{
    if part.turned {
        less(alloc, part.at, &part.term)
    } else {
        more(alloc, part.at, &part.term)
    }
}
