//! From the multipliers of a clash to steps.
ghost use Rattle.std.specs.Prelude.{OnOk};
ghost use Rattle.scasp_simplex.specs.Inside.Chains.{Add};

use crate::chain::{Chain, add_step, numbered};
use crate::solving::Share;
use crate::stop::Stop;
use crate::whole::{common_divisor, fraction, product, quotient, sum};
use scasp_num::{Rat, Row, Step};
use std::alloc::Global;

/// The sum so far: a row, by its number, times a number.
#[derive(Clone, Copy)]
struct Total {
    number: u64,
    times: Rat,
}

/// A step, and the number by which the sum so far and the next part were divided for it.
#[derive(Clone, Copy)]
struct Reduction {
    step: Step,
    divided: Rat,
}

/// Adds up the shares by steps.
pub(crate) fn combine(
    alloc: Global,
    rows: &[Row],
    chain: &mut Chain,
    shares: &[Share],
) -> Result<(), Stop>
    requires { Add rows.now chain.old.steps chain.old.added }
    ensures { OnOk result (Add rows.now chain.new.steps chain.new.added) }
{
    match shares {
        [] => Ok(()),
        [first, others @ ..] => add_up(alloc, rows, chain, first, others),
    }
}

/// Adds up the parts by steps.
fn add_up(
    alloc: Global,
    rows: &[Row],
    chain: &mut Chain,
    first: &Share,
    others: &[Share],
) -> Result<(), Stop>
    requires { Add rows.now chain.old.steps chain.old.added }
    ensures { OnOk result (Add rows.now chain.new.steps chain.new.added) }
{
    let mut total = Total {
        number: first.number,
        times: fraction(first.times, 1)?,
    };
    for part in others {
        total = added(alloc, rows, chain, &total, part)?;
    }
    Ok(())
}

/// The sum with one more part, by a step.
fn added(
    alloc: Global,
    rows: &[Row],
    chain: &mut Chain,
    total: &Total,
    part: &Share,
) -> Result<Total, Stop>
    requires { Add rows.now chain.old.steps chain.old.added }
    ensures { OnOk result (Add rows.now chain.new.steps chain.new.added) }
{
    let Reduction { step, divided } = reduced(total, part)?;
    add_step(alloc, rows, chain, &step)?;
    let number = (rows.len() as u64).saturating_add(chain.added.len() as u64);
    let scale = scale_of(rows, chain.added.as_slice(), &step, number)?;
    let times = divided.mul(&fraction(scale, 1)?)?;
    Ok(Total { number, times })
}

/// The step that adds the part, with multipliers that have no common divisor.
fn reduced(total: &Total, part: &Share) -> Result<Reduction, Stop> {
    let a = total.times.num();
    let b = product(part.times, total.times.den())?;
    let shared = common_divisor(a, b)?;
    let step = Step {
        a: quotient(a, shared)?,
        p: total.number,
        b: quotient(b, shared)?,
        q: part.number,
    };
    let divided = fraction(shared, total.times.den())?;
    Ok(Reduction { step, divided })
}

/// What the sum of two rows was divided by to be in normal form: told by one of its integers, and 1 of two zeros.
fn scale_of(rows: &[Row], added: &[Row], step: &Step, number: u64) -> Result<i128, Stop> {
    let p = numbered(rows, added, step.p).ok_or(Stop::Lost)?;
    let q = numbered(rows, added, step.q).ok_or(Stop::Lost)?;
    let made = numbered(rows, added, number).ok_or(Stop::Lost)?;
    match made.coeffs().get(0) {
        Some(k) => {
            let sum = sum_of(step, p.coefficient(k.x), q.coefficient(k.x))?;
            quotient(sum, k.c)
        }
        None if made.constant() == 0 => Ok(1),
        None => quotient(sum_of(step, p.constant(), q.constant())?, made.constant()),
    }
}

/// The sum of two integers with the step's multipliers.
fn sum_of(step: &Step, c: i128, d: i128) -> Result<i128, Stop> {
    sum(product(step.a, c)?, product(step.b, d)?)
}
