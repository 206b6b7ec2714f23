//! Sums: a constant, and a number for each variable.
ghost use Rattle.std.specs.Prelude.{◌≡◌, ◌++◌, true, IfOk, OnOk};
ghost use Rattle.std.specs.Result.{result_ok};
ghost use Rattle.scasp_num.specs.Linear.{Gives};
ghost use Rattle.scasp_num.specs.Sums.{added, summed};
ghost use Rattle.scasp_reader_expressions.specs.Sums.{number_by, is_defined, constant_sum, variable_sum, negated_pairs, negated_sum, total, each_pair, each_number, product, worked, row_of};

use scasp_list::Memory;
use scasp_num::{Op, Overflow, Rat, RatPair, RatPairs, Row, RowErr};
use std::alloc::Global;

/// A constant, and a number for each variable. The variables ascend; one whose numbers cancel stays.
#[derive(Debug, Drop)]
pub struct Sum {
    pub constant: Rat,
    pub pairs: RatPairs,
}

/// An operation on two numbers, or on two sums.
#[derive(Clone, Copy, Debug, PartialEq, Eq)]
pub enum Operation {
    Plus,
    Minus,
    Times,
    Over,
}

/// The operation on two numbers.
fn number_by(operation: Operation, p: &Rat, q: &Rat) -> Result<Rat, Overflow>
    requires { is_defined operation q.now ≡ true }
    ensures { result_ok result ≡ number_by operation p.now q.now }
{
    match operation {
        Operation::Plus => p.add(q),
        Operation::Minus => p.sub(q),
        Operation::Times => p.mul(q),
        Operation::Over => p.div(q),
    }
}

/// The sum that is a number.
pub fn constant_sum(alloc: Global, constant: Rat) -> Sum
    ensures { result ≡ constant_sum constant }
{
    Sum {
        constant,
        pairs: RatPairs::new(alloc),
    }
}

/// The sum that is a variable.
pub fn variable_sum(alloc: Global, x: u64) -> Result<Sum, RowErr>
    ensures { Gives result (variable_sum x) }
{
    let constant = Rat::new(0, 1)?;
    let value = Rat::new(1, 1)?;
    let mut pairs = RatPairs::new(alloc);
    pairs.push(RatPair { x, value })?;
    Ok(Sum { constant, pairs })
}

/// Puts the negations of the pairs at the end.
fn push_negated(pairs: &mut RatPairs, others: &[RatPair]) -> Result<(), Memory>
    ensures { OnOk result (pairs.new ≡ pairs.old ++ negated_pairs others.now) }
{
    for k in others {
        let value = k.value.neg();
        pairs.push(RatPair { x: k.x, value })?;
    }
    Ok(())
}

/// The negation of a sum.
pub fn negated_sum(alloc: Global, sum: &Sum) -> Result<Sum, Memory>
    ensures { IfOk result (λ negated. negated ≡ negated_sum sum.now) }
{
    let mut pairs = RatPairs::new(alloc);
    push_negated(&mut pairs, sum.pairs.as_slice())?;
    let constant = sum.constant.neg();
    Ok(Sum { constant, pairs })
}

/// The pairs with one more number of `x` added, where their variables ascend.
fn added(alloc: Global, sums: &[RatPair], x: u64, value: &Rat) -> Result<RatPairs, RowErr>
    ensures { Gives result (added x value.now sums.now) }
{
    let mut pairs = RatPairs::new(alloc);
    let mut is_placed = false;
    for k in sums {
        if is_placed || k.x < x {
            pairs.push(*k)?;
        } else if k.x == x {
            let sum = k.value.add(value)?;
            pairs.push(RatPair { x, value: sum })?;
            is_placed = true;
        } else {
            pairs.push(RatPair { x, value: *value })?;
            pairs.push(*k)?;
            is_placed = true;
        }
    }
    if !is_placed {
        pairs.push(RatPair { x, value: *value })?;
    }
    Ok(pairs)
}

/// The numbers of each variable added, in order.
fn summed(alloc: Global, pairs: RatPairs, others: &[RatPair]) -> Result<RatPairs, RowErr>
    ensures { Gives result (summed pairs others.now) }
{
    let mut sums = pairs;
    for k in others {
        sums = added(alloc, sums.as_slice(), k.x, &k.value)?;
    }
    Ok(sums)
}

/// The sum of both.
fn total(alloc: Global, a: Sum, b: &Sum) -> Result<Sum, RowErr>
    ensures { Gives result (total a b.now) }
{
    let Sum {
        constant: first,
        pairs: sums,
    } = a;
    let constant = first.add(&b.constant)?;
    let pairs = summed(alloc, sums, b.pairs.as_slice())?;
    Ok(Sum { constant, pairs })
}

/// The operation on the number of each pair, with this number.
fn each_pair(
    alloc: Global,
    operation: Operation,
    q: &Rat,
    pairs: &[RatPair],
) -> Result<RatPairs, RowErr>
    requires { is_defined operation q.now ≡ true }
    ensures { Gives result (each_pair operation q.now pairs.now) }
{
    let mut results = RatPairs::new(alloc);
    for k in pairs {
        let value = number_by(operation, &k.value, q)?;
        results.push(RatPair { x: k.x, value })?;
    }
    Ok(results)
}

/// The operation on each number of the sum, with this number.
fn each_number(alloc: Global, operation: Operation, q: &Rat, a: &Sum) -> Result<Sum, RowErr>
    requires { is_defined operation q.now ≡ true }
    ensures { Gives result (each_number operation q.now a.now) }
{
    let constant = number_by(operation, &a.constant, q)?;
    let pairs = each_pair(alloc, operation, q, a.pairs.as_slice())?;
    Ok(Sum { constant, pairs })
}

/// The product, where one of the two has no variable.
fn product(alloc: Global, a: &Sum, b: &Sum) -> Result<Sum, RowErr>
    ensures { Gives result (product a.now b.now) }
{
    if a.pairs.len() == 0 {
        each_number(alloc, Operation::Times, &a.constant, b)
    } else {
        each_number(alloc, Operation::Times, &b.constant, a)
    }
}

/// The operation on two sums; Overflow where an operation on their numbers overflows.
pub fn worked(alloc: Global, operation: Operation, a: Sum, b: Sum) -> Result<Sum, RowErr>
    requires { is_defined operation b.constant ≡ true }
    ensures { Gives result (worked operation a b) }
{
    match operation {
        Operation::Plus => total(alloc, a, &b),
        Operation::Minus => {
            let negated = negated_sum(alloc, &b)?;
            total(alloc, a, &negated)
        }
        Operation::Times => product(alloc, &a, &b),
        Operation::Over => each_number(alloc, Operation::Over, &b.constant, &a),
    }
}

/// The row in normal form that says how the difference of the two compares with 0; Overflow where it is not in range.
pub fn row_of(alloc: Global, op: Op, a: Sum, b: &Sum) -> Result<Row, RowErr>
    ensures { Gives result (row_of op a b.now) }
{
    let Sum {
        constant: first,
        mut pairs,
    } = a;
    let constant = first.sub(&b.constant)?;
    push_negated(&mut pairs, b.pairs.as_slice())?;
    Row::normal(alloc, &pairs, &constant, op)
}
