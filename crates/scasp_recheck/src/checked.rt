//! What a check of a certificate comes to.
ghost use Rattle.std.specs.Prelude.{◌≡◌, IfOk};
ghost use Rattle.scasp_cert.specs.Certificate.{certificate_of};
ghost use Rattle.scasp_recheck.specs.Checks.{checked_of};

use scasp_cert::Cert;
use scasp_checker::{CheckErr, Refusal, Verdict, check};
use scasp_list::Memory;
use scasp_syntax::Program;
use std::alloc::Global;

/// What a check of a certificate comes to.
#[derive(Clone, Copy, Debug, PartialEq, Eq)]
pub enum Checked {
    /// It is accepted, and worth so much.
    Accepted(Verdict),
    /// It is not accepted, first by this.
    Refused(Refusal),
}

/// What a check comes to.
pub(crate) fn check_anew(alloc: Global, program: &Program, cert: &Cert) -> Result<Checked, Memory>
    ensures { IfOk result (λ checked. checked ≡ checked_of program.now (certificate_of cert.now)) }
{
    match check(alloc, program, cert) {
        Ok(Verdict::Right) => Ok(Checked::Accepted(Verdict::Right)),
        Ok(Verdict::Joins(fault)) => Ok(Checked::Accepted(Verdict::Joins(fault))),
        Err(CheckErr::Refused(refusal)) => Ok(Checked::Refused(refusal)),
        Err(CheckErr::Memory) => Err(Memory),
    }
}
