//! The sum of two rows with multipliers.
ghost use Rattle.std.specs.Prelude.{◌≡◌, ◌*ℤ◌, IfOk};
ghost use Rattle.std.specs.Result.{result_ok};
ghost use Rattle.scasp_num.specs.Linear.{Gives, IsNormal};
ghost use Rattle.scasp_num.specs.Values.{Holds};
ghost use Rattle.scasp_rows.specs.Points.{RationalPoint};
ghost use Rattle.scasp_rows.specs.Steps.{AddsTimes, Answers, constant_sum, joined, may_scale, row_sum, step_of, terms_sum, times, whole};

use crate::range::sum_fits;
use scasp_num::{Coeff, Op, Overflow, Rat, RatPair, RatPairs, Row, RowErr};
use std::alloc::Global;
use thiserror::Error;

/// Why a step makes no row.
#[derive(Clone, Copy, Debug, PartialEq, Eq, Error)]
pub enum StepErr {
    #[error("a number is too large")]
    Overflow,
    #[error("a multiplier has the wrong sign")]
    Sign,
    #[error("out of memory")]
    Memory,
}

/// The normal form of `a` times `p` plus `b` times `q`, a consequence of the two rows: strict where one of
/// them is, and an equation where both are. Sign exactly where a multiplier is 0, a row has `=\=`, or a
/// multiplier below 0 stands at a row that is no equation. Else Overflow exactly where a product or sum
/// lies outside -M..M, where M is 2^127 - 1, and Memory only where neither is due.
pub fn step(alloc: Global, a: i128, p: &Row, b: i128, q: &Row) -> Result<Row, StepErr>
    ensures exact { Answers result (step_of a p.now b q.now) }
    ensures holds { IfOk result (λ row. (v : RationalPoint) → Holds v p.now → Holds v q.now → Holds v row) }
    ensures normal { IfOk result IsNormal }
{
    if !may_scale(a, p.op()) || !may_scale(b, q.op()) {
        return Err(StepErr::Sign);
    }
    if !sum_fits(a, p, b, q) {
        return Err(StepErr::Overflow);
    }
    match row_sum(alloc, a, p, b, q) {
        Ok(row) => Ok(row),
        Err(RowErr::Overflow) => Err(StepErr::Overflow),
        Err(RowErr::Memory) => Err(StepErr::Memory),
    }
}

/// Whether a row that compares so may be multiplied by `a`.
fn may_scale(a: i128, op: Op) -> bool
    ensures { result ≡ may_scale a op }
{
    match op {
        Op::Eq => a != 0,
        Op::Lt | Op::Le => a > 0,
        Op::Ne => false,
    }
}

/// How the sum of two rows compares with 0.
fn joined(p: Op, q: Op) -> Op
    ensures { result ≡ joined p q }
{
    match (p, q) {
        (Op::Eq, _) => q,
        (Op::Lt, _) | (Op::Le, Op::Lt) => Op::Lt,
        (Op::Le, Op::Eq | Op::Le) => Op::Le,
        (Op::Le, Op::Ne) | (Op::Ne, _) => Op::Ne,
    }
}

/// The product, as a number.
pub(crate) fn whole_product(a: i128, c: i128) -> Result<Rat, Overflow>
    ensures { result_ok result ≡ whole (a *ℤ c) }
{
    match a.checked_mul(c) {
        Some(product) => Rat::new(product, 1),
        None => Err(Overflow),
    }
}

/// Puts `a` times each of the terms behind the pairs.
pub(crate) fn push_times(pairs: &mut RatPairs, a: i128, terms: &[Coeff]) -> Result<(), RowErr>
    ensures { AddsTimes pairs.old pairs.new result (times a terms.now) }
{
    for k in terms {
        let value = whole_product(a, k.c)?;
        pairs.push(RatPair { x: k.x, value })?;
    }
    Ok(())
}

/// The terms of `a` times `p`, and behind them those of `b` times `q`.
#[tactic(auto, using(scasp_num::proofs::Numbers::plain))]
fn terms_sum(alloc: Global, a: i128, p: &Row, b: i128, q: &Row) -> Result<RatPairs, RowErr>
    ensures { Gives result (terms_sum a p.now b q.now) }
{
    let mut pairs = RatPairs::new(alloc);
    push_times(&mut pairs, a, p.coeffs().as_slice())?;
    push_times(&mut pairs, b, q.coeffs().as_slice())?;
    Ok(pairs)
}

/// `a` times the constant of `p` plus `b` times that of `q`.
#[tactic(auto, using(scasp_num::proofs::Numbers::plain))]
fn constant_sum(a: i128, p: &Row, b: i128, q: &Row) -> Result<Rat, RowErr>
    ensures { Gives result (constant_sum a p.now b q.now) }
{
    let left = whole_product(a, p.constant())?;
    let right = whole_product(b, q.constant())?;
    let sum = left.add(&right)?;
    Ok(sum)
}

/// The normal form of `a` times `p` plus `b` times `q`. Overflow exactly where a product or sum lies outside
/// -M..M.
#[tactic(auto, using(scasp_num::proofs::Numbers::plain), unfolding(crate::specs::Steps::row_sum))]
pub(crate) fn row_sum(alloc: Global, a: i128, p: &Row, b: i128, q: &Row) -> Result<Row, RowErr>
    ensures exact { Gives result (row_sum a p.now b q.now) }
    ensures normal { IfOk result IsNormal }
{
    let terms = terms_sum(alloc, a, p, b, q)?;
    let constant = constant_sum(a, p, b, q)?;
    let row = Row::normal(alloc, &terms, &constant, joined(p.op(), q.op()))?;
    Ok(row)
}
