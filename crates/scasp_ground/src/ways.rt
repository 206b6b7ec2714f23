//! Ways of giving variables members of a domain.
ghost use Rattle.std.specs.Prelude.{◌≡◌, ◌<◌, ◌≤◌, ◌^◌, length, slice_get, Some, IfOk};
ghost use Rattle.scasp_ground.specs.Inside.Chosen.{chosen};
ghost use Rattle.scasp_model.specs.Grounding.{choices};
ghost use Rattle.scasp_syntax.specs.Tm.{items};

use crate::count::power;
use scasp_list::Memory;
use scasp_syntax::{Terms, copy};
use scasp_tables::Domain;
use std::alloc::Global;

/// The way of this number, counted from 0, of giving so many variables members of the domain: the value of each variable in order.
/// The last variable goes fastest.
pub fn choice(alloc: Global, domain: &Domain, variables: u64, number: u64) -> Result<Terms, Memory>
    requires limit { length (items domain.now) ^ variables ≤ 1000000 }
    requires below { number < length (items domain.now) ^ variables }
    ensures { IfOk result (λ values. slice_get (choices (items domain.now) variables) number ≡ Some (items values)) }
{
    match power(domain.len() as u64, variables) {
        Some(count) => chosen(alloc, domain, variables, count, number),
        None => unreachable!(),
    }
}

/// The values of the way, of which there are `count`: the members at the digits of its number.
fn chosen(
    alloc: Global,
    domain: &Domain,
    variables: u64,
    count: u64,
    number: u64,
) -> Result<Terms, Memory>
    requires count { count ≡ length (items domain.now) ^ variables }
    requires below { number < count }
    ensures { IfOk result (λ values. items values ≡ chosen (items domain.now) variables number) }
{
    let members = domain.len() as u64;
    let mut values = Terms::new(alloc);
    let mut block = count;
    let mut rest = number;
    for _variable in 0..variables {
        block /= members;
        if let Some(member) = domain.get((rest / block) as usize) {
            values.push(copy(alloc, member)?)?;
        }
        rest %= block;
    }
    Ok(values)
}
