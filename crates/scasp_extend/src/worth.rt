//! What the certificate is worth.
ghost use Rattle.scasp_cert.specs.Certificate.{certificate_of};
ghost use Rattle.scasp_extend.specs.Extension.{not_right};
ghost use Rattle.scasp_extend_parts.specs.Causes.{Explains};

use scasp_cert::Cert;
use scasp_checker::{Verdict, check};
use scasp_extend_parts::ExtendErr;
use scasp_syntax::Program;
use std::alloc::Global;

/// Tests that the certificate is accepted and the program keeps its map.
///
/// # Errors
///
/// Refused with the first fault; Joins with the first clause that breaks the map; want of memory.
pub(crate) fn accept_right(alloc: Global, program: &Program, cert: &Cert) -> Result<(), ExtendErr>
    ensures { Explains result (not_right program.now (certificate_of cert.now)) }
{
    match check(alloc, program, cert) {
        Ok(Verdict::Right) => Ok(()),
        Ok(Verdict::Joins(fault)) => Err(ExtendErr::Joins(fault)),
        Err(error) => Err(ExtendErr::from(error)),
    }
}
