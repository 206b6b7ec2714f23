//! Rows in normal form.
ghost use Rattle.std.specs.Prelude.{◌≡◌, ◌&&◌, true, map, pos, if◌then◌else◌, IfOk, Some, None};
ghost use Rattle.std.specs.List.{list_all};
ghost use Rattle.scasp_list.specs.Each.{Each};
ghost use Rattle.scasp_num.specs.Arithmetic.{in_range};
ghost use Rattle.scasp_num.specs.Linear.{is_normal};
ghost use Rattle.scasp_num.specs.declared.linear.Op.{Op};
ghost use Rattle.scasp_num.specs.Number.{InRange};
ghost use Rattle.scasp_num.specs.SameRow.{same_row, same_terms};
ghost use Rattle.scasp_lines_places.specs.Dues.Wholes.{integer, pair_of};
ghost use Rattle.scasp_answers_terms.specs.Tokens.Bounds.{is_place, row_fits};
ghost use Rattle.scasp_answers_terms.specs.Tokens.Constraints as constraints;
ghost use Rattle.scasp_answers_terms.specs.Tokens.Readers.{made};
ghost use Rattle.scasp_answers_terms.specs.Tokens.Rows as spec;
ghost use Rattle.scasp_answers_terms.specs.Tokens.View.{Reads};
ghost use Rattle.scasp_answers_lines.specs.Rows.Inside.{linear_of};

use crate::rows::sums::{Sum, any_sum};
use scasp_answers_terms::{Cursor, Stop};
use scasp_list::Memory;
use scasp_num::{Coeff, Op, Rat, RatPair, RatPairs, Row, RowErr};
use scasp_syntax::{Con, Term};
use std::alloc::Global;

fn is_in_range(value: i128) -> bool
    ensures { result ≡ in_range value }
{
    value != i128::MIN
}

fn coeff_fits(k: Coeff) -> bool
    ensures { result ≡ (is_place k.x && in_range k.c) }
{
    k.x < 1 << 63 && is_in_range(k.c)
}

fn coeffs_fit(coeffs: &[Coeff]) -> bool
    ensures { result ≡ list_all (λ k. is_place k.x && in_range k.c) coeffs.now }
{
    coeffs.iter().all(|k| coeff_fits(*k))
}

fn fits(sum: &Sum) -> bool
    ensures { (op : Op) → result ≡ row_fits (linear_of sum.now op) }
{
    coeffs_fit(sum.coeffs.as_slice()) && is_in_range(sum.constant)
}

/// The integer as a number.
fn integer_number(value: i128) -> Rat
    requires { InRange value }
    ensures { result ≡ integer value }
{
    match Rat::new(value, 1) {
        Ok(number) => number,
        Err(_) => unreachable!(),
    }
}

fn pairs_of(alloc: Global, coeffs: &[Coeff]) -> Result<RatPairs, Memory>
    requires { Each (λ k. InRange k.c) coeffs.now }
    ensures { IfOk result (λ pairs. pairs ≡ map pair_of coeffs.now) }
{
    let mut pairs = RatPairs::new(alloc);
    for k in coeffs {
        let value = integer_number(k.c);
        pairs.push(RatPair { x: k.x, value })?;
    }
    Ok(pairs)
}

/// Whether the two lists are equal.
fn same_terms(p: &[Coeff], q: &[Coeff]) -> bool
    ensures { result ≡ same_terms p.now q.now }
{
    if p.len() != q.len() {
        return false;
    }
    for (i, k) in p.iter().enumerate() {
        if k.x != q[i].x || k.c != q[i].c {
            return false;
        }
    }
    true
}

/// Whether the row is that of the sum.
fn is_row_of(row: &Row, sum: &Sum, op: Op) -> bool
    ensures { result ≡ same_row row.now (linear_of sum.now op) }
{
    row.op() == op
        && row.constant() == sum.constant
        && same_terms(row.coeffs().as_slice(), sum.coeffs.as_slice())
}

/// The row of the sum, where it is in normal form.
fn normal_row(alloc: Global, sum: &Sum, op: Op) -> Result<Option<Row>, Memory>
    requires { row_fits (linear_of sum.now op) ≡ true }
    ensures { IfOk result (λ row. row ≡ (if is_normal (linear_of sum.now op) then Some (linear_of sum.now op) else None)) }
{
    let pairs = pairs_of(alloc, sum.coeffs.as_slice())?;
    let constant = integer_number(sum.constant);
    match Row::normal(alloc, &pairs, &constant, op) {
        Ok(row) if is_row_of(&row, sum, op) => Ok(Some(row)),
        Ok(_) => Ok(None),
        Err(RowErr::Overflow) => Ok(None),
        Err(RowErr::Memory) => Err(Memory),
    }
}

/// Takes the relation of a row, with what it compares to.
fn relation(cursor: &mut Cursor<'_>) -> Result<Op, Stop>
    ensures { Reads (λ o. o) (spec.relation_at cursor.old) result cursor.new }
{
    if cursor.skips(b" #= 0") {
        Ok(Op::Eq)
    } else if cursor.skips(b" #< 0") {
        Ok(Op::Lt)
    } else if cursor.skips(b" #=< 0") {
        Ok(Op::Le)
    } else if cursor.skips(b" #<> 0") {
        Ok(Op::Ne)
    } else {
        Err(Stop::NoForm)
    }
}

/// Takes a row in normal form, as a constraint. One with a number that is too large is a constraint that is too large.
pub fn row_con(alloc: Global, cursor: &mut Cursor<'_>) -> Result<Con, Stop>
    ensures { Reads (λ c. c) (made constraints.row_con (spec.row_at cursor.old)) result cursor.new }
{
    let sum = any_sum(alloc, cursor)?;
    let op = relation(cursor)?;
    if fits(&sum) {
        match normal_row(alloc, &sum, op)? {
            Some(row) => Ok(Con::Row(row)),
            None => Err(Stop::NoForm),
        }
    } else {
        Ok(Con::Eq(Term::Var(u64::MAX), Term::Var(u64::MAX)))
    }
}
