//! Values of expressions.
ghost use Rattle.std.specs.Prelude.{◌≡◌, true, not, IfOk};
ghost use Rattle.scasp_reader_expressions.specs.declared.sums.Operation.TheVariants as operations;
ghost use Rattle.scasp_reader_terms.specs.Steps.{Does};
ghost use Rattle.scasp_reader_expressions.specs.Values.{inserted, united, has_variables, is_defined_with, is_linear, made_at, combined, not_linear, operated, negated};
ghost use Rattle.scasp_reader_expressions.specs.Sums.{worked, row_of};

use crate::sums::{Operation, Sum, negated_sum, row_of, worked};
use scasp_list::Memory;
use scasp_num::{Op, Row, RowErr};
use scasp_reader_terms::{Kind, Reader, Stop};
use scasp_syntax::VarList;
use std::alloc::Global;

/// The variables that are written in an expression, ascending, and its sum; None where a fault was noted in it.
#[derive(Debug, Drop)]
pub struct Value {
    pub variables: VarList,
    pub sum: Option<Sum>,
}

impl Value {
    /// Whether a variable is written in it.
    fn has_variables(&self) -> bool
        ensures { result ≡ has_variables self.now }
    {
        0 < self.variables.len()
    }
}

/// The numbers, which ascend, with `x` at its place.
fn inserted(alloc: Global, x: u64, numbers: &[u64]) -> Result<VarList, Memory>
    ensures { IfOk result (λ all. all ≡ inserted x numbers.now) }
{
    let mut all = VarList::new(alloc);
    'lesser: for y in numbers {
        if *y < x {
            all.push(*y)?;
        }
    }
    all.push(x)?;
    'greater: for y in numbers {
        if x < *y {
            all.push(*y)?;
        }
    }
    Ok(all)
}

/// All numbers of both, ascending.
pub fn united(alloc: Global, numbers: VarList, others: &[u64]) -> Result<VarList, Memory>
    ensures { IfOk result (λ all. all ≡ united numbers others.now) }
{
    let mut all = numbers;
    for y in others {
        all = inserted(alloc, *y, all.as_slice())?;
    }
    Ok(all)
}

/// Whether the operation on the two is linear, and does not divide by 0.
fn is_linear(operation: Operation, e: &Value, f: &Value) -> bool
    ensures { result ≡ is_linear operation e.now f.now }
{
    match operation {
        Operation::Plus => true,
        Operation::Minus => true,
        Operation::Times => !(e.has_variables() && f.has_variables()),
        Operation::Over => !f.has_variables() && !is_zero(&f.sum),
    }
}

/// Whether the sum is known to be 0, where it has no variables.
fn is_zero(sum: &Option<Sum>) -> bool
    ensures { not result ≡ is_defined_with operations.Over sum.now }
{
    match sum {
        Some(sum) => sum.constant.num() == 0,
        None => false,
    }
}

/// The two sums by the operation, whose sign stands at this place.
fn worked_at(
    reader: &mut Reader<'_>,
    alloc: Global,
    operation: Operation,
    at: u64,
    a: Option<Sum>,
    b: Option<Sum>,
) -> Result<Option<Sum>, Stop>
    requires { is_defined_with operation b ≡ true }
    ensures { Does (λ x. x) (made_at (worked operation) at a b) reader.old result reader.new }
{
    let (Some(a), Some(b)) = (a, b) else {
        return Ok(None);
    };
    match worked(alloc, operation, a, b) {
        Ok(sum) => Ok(Some(sum)),
        Err(RowErr::Overflow) => {
            reader.note(at, Kind::NumberTooLarge);
            Ok(None)
        }
        Err(RowErr::Memory) => Err(Stop::Memory),
    }
}

/// The two values by the operation, whose sign stands at this place.
pub fn operated(
    reader: &mut Reader<'_>,
    alloc: Global,
    operation: Operation,
    at: u64,
    e: Value,
    f: Value,
) -> Result<Value, Stop>
    ensures { Does (λ x. x) (operated operation at e f) reader.old result reader.new }
{
    if is_linear(operation, &e, &f) {
        combined(reader, alloc, operation, at, e, f)
    } else {
        not_linear(reader, alloc, at, e, f)
    }
}

fn combined(
    reader: &mut Reader<'_>,
    alloc: Global,
    operation: Operation,
    at: u64,
    e: Value,
    f: Value,
) -> Result<Value, Stop>
    requires { is_linear operation e f ≡ true }
    ensures { Does (λ x. x) (combined operation at e f) reader.old result reader.new }
{
    let Value {
        variables: first,
        sum: a,
    } = e;
    let Value {
        variables: second,
        sum: b,
    } = f;
    let sum = worked_at(reader, alloc, operation, at, a, b)?;
    let variables = united(alloc, first, second.as_slice())?;
    Ok(Value { variables, sum })
}

fn not_linear(
    reader: &mut Reader<'_>,
    alloc: Global,
    at: u64,
    e: Value,
    f: Value,
) -> Result<Value, Stop>
    ensures { Does (λ x. x) (not_linear at e f) reader.old result reader.new }
{
    reader.note(at, Kind::NotLinear);
    let variables = united(alloc, e.variables, f.variables.as_slice())?;
    let sum = None;
    Ok(Value { variables, sum })
}

/// The value, or its negation.
pub fn negated(alloc: Global, minus: bool, e: Value) -> Result<Value, Memory>
    ensures { IfOk result (λ value. value ≡ negated minus e) }
{
    if !minus {
        return Ok(e);
    }
    let Value { variables, sum } = e;
    let sum = match sum {
        Some(sum) => Some(negated_sum(alloc, &sum)?),
        None => None,
    };
    Ok(Value { variables, sum })
}

/// The row that says how the difference of the two compares with 0, by a relation that stands at this place;
/// None where a fault was noted.
pub fn row_at(
    reader: &mut Reader<'_>,
    alloc: Global,
    op: Op,
    at: u64,
    e: Option<Sum>,
    f: &Option<Sum>,
) -> Result<Option<Row>, Stop>
    ensures { Does (λ x. x) (made_at (row_of op) at e f.now) reader.old result reader.new }
{
    let (Some(a), Some(b)) = (e, f) else {
        return Ok(None);
    };
    match row_of(alloc, op, a, b) {
        Ok(row) => Ok(Some(row)),
        Err(RowErr::Overflow) => {
            reader.note(at, Kind::NumberTooLarge);
            Ok(None)
        }
        Err(RowErr::Memory) => Err(Stop::Memory),
    }
}
