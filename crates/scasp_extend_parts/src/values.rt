//! Values of the free variables of a certificate.
ghost use Rattle.scasp_cert.specs.Certificate.{certificate_of};
ghost use Rattle.scasp_extend_parts.specs.Causes.{Explains};
ghost use Rattle.scasp_extend_parts.specs.Obstacles.{given_unmet, unless_met};
ghost use Rattle.scasp_ground.specs.Bounded.{all_tested};
ghost use Rattle.scasp_syntax.specs.Tm.{items};
ghost use Rattle.scasp_syntax.specs.Values.{giving};

use crate::errors::ExtendErr;
use scasp_cert::Cert;
use scasp_ground::passes;
use scasp_syntax::{Terms, are_ground};
use std::alloc::Global;

/// Tests that the values are as many as the free variables of the certificate, are ground, and meet what is given.
///
/// # Errors
///
/// Given where they are not; Overflow where the sum of a row that is given is past the range of the numbers, before the first
/// constraint that they do not meet; want of memory.
pub fn accept_values(alloc: Global, cert: &Cert, values: &Terms) -> Result<(), ExtendErr>
    ensures { Explains result (given_unmet (certificate_of cert.now) values.now) }
{
    if values.len() != cert.sample.len() {
        return Err(ExtendErr::Given);
    }
    if !are_ground(alloc, values)? {
        return Err(ExtendErr::Given);
    }
    meets_given(alloc, cert, values)
}

/// Tests that the values meet what is given.
fn meets_given(alloc: Global, cert: &Cert, values: &Terms) -> Result<(), ExtendErr>
    ensures { Explains result (unless_met (all_tested (giving (items values.now)) cert.now.given)) }
{
    match passes(alloc, values, &cert.given) {
        Ok(true) => Ok(()),
        Ok(false) => Err(ExtendErr::Given),
        Err(error) => Err(ExtendErr::from(error)),
    }
}
