//! Whether a certificate is accepted.
ghost use Rattle.std.specs.Prelude.{◌≡◌};
ghost use Rattle.scasp_cert.specs.Certificate.{certificate_of};
ghost use Rattle.scasp_checker_rules.specs.Faults.{faults};
ghost use Rattle.scasp_checker_answer.specs.Judged.{Judges};

use crate::pairs::accept_apart;
use crate::walk::{accept_lines, with_table};
use scasp_cert::Cert;
use scasp_checker_answer::{CheckErr, accept_answer, accept_map, accept_sample};
use scasp_syntax::Program;
use std::alloc::Global;

/// Tests the certificate: it is accepted, or refused by the first thing that is wrong with it. In this order: the answer, the
/// lines, the pairs of literals, the sample, the map.
///
/// # Errors
///
/// The first fault; want of memory.
pub fn accept(alloc: Global, program: &Program, cert: &Cert) -> Result<(), CheckErr>
    ensures { Judges result (faults program.now (certificate_of cert.now)) }
{
    accept_answer(alloc, program, cert)?;
    let tabled = with_table(alloc, program, cert)?;
    accept_lines(alloc, &tabled)?;
    accept_apart(alloc, &tabled.common, &tabled.table)?;
    accept_sample(alloc, cert)?;
    accept_map(alloc, program, cert)
}
