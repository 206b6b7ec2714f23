//! Rows with their variables raised.
ghost use Rattle.std.specs.Prelude.{◌≡◌, pos, IfOk, map};
ghost use Rattle.std.specs.Result.{result_ok};
ghost use Rattle.scasp_num.specs.Arithmetic.{lowest};
ghost use Rattle.scasp_checker_rules.specs.PairLists.{raised_from, row_raised};
ghost use Rattle.scasp_lines_places.specs.Dues.Wholes.{integer, raised_pair};

use crate::dues::sums::sum;
use scasp_list::Memory;
use scasp_num::{Coeff, Overflow, Rat, RatPair, RatPairs, Row, RowErr};
use std::alloc::Global;

/// The variable, raised by `by` where it is not below `free`.
pub fn raised_from(free: u64, by: u64, x: u64) -> Result<u64, Memory>
    ensures { IfOk result (λ made. made ≡ raised_from free by x) }
{
    if x < free { Ok(x) } else { sum(x, by) }
}

/// The integer as a number.
fn whole(value: i128) -> Result<Rat, Overflow>
    ensures { result_ok result ≡ lowest value (pos 1) }
{
    Rat::new(value, 1)
}

/// The integer as a number, which it is where it lies in range.
#[tactic(auto, using(crate::proofs::DuesLemmas::NormalLemmas::integer_is))]
fn integer_number(value: i128) -> Result<Rat, Memory>
    ensures { IfOk result (λ made. made ≡ integer value) }
{
    match whole(value) {
        Ok(number) => Ok(number),
        Err(_) => Err(Memory),
    }
}

/// The coefficients, with their variables raised.
fn raised_pairs(alloc: Global, free: u64, by: u64, coeffs: &[Coeff]) -> Result<RatPairs, Memory>
    ensures { IfOk result (λ made. made ≡ map (raised_pair free by) coeffs.now) }
{
    let mut pairs = RatPairs::new(alloc);
    for k in coeffs {
        let x = raised_from(free, by, k.x)?;
        let value = integer_number(k.c)?;
        pairs.push(RatPair { x, value })?;
    }
    Ok(pairs)
}

/// The row with each variable that is not below `free` raised by `by`.
pub fn raised_row(alloc: Global, row: &Row, free: u64, by: u64) -> Result<Row, Memory>
    ensures { IfOk result (λ made. made ≡ row_raised free by row.now) }
{
    let pairs = raised_pairs(alloc, free, by, row.coeffs().as_slice())?;
    let constant = integer_number(row.constant())?;
    match Row::normal(alloc, &pairs, &constant, row.op()) {
        Ok(made) => Ok(made),
        Err(RowErr::Overflow) => unreachable!(),
        Err(RowErr::Memory) => Err(Memory),
    }
}
