//! What a certificate is worth.
ghost use Rattle.std.specs.Prelude.{◌≡◌, IfOk};
ghost use Rattle.scasp_syntax.specs.declared.program.Program.{Program as ThisProgram};
ghost use Rattle.scasp_cert.specs.Certificate.{certificate_of};
ghost use Rattle.scasp_command_check.specs.Worths.{worth_of, Says};

use scasp_cert::Cert;
use scasp_checker::{CheckErr, Refusal, Verdict, check};
use scasp_graph::MapFault;
use scasp_law_promise::see_rows;
use scasp_list::Memory;
use scasp_syntax::Program;
use std::alloc::Global;

/// What a certificate is worth.
#[derive(Clone, Copy, Debug, PartialEq, Eq)]
pub enum Worth {
    /// It is accepted, and the program keeps its map.
    Right,
    /// It is accepted; this clause is the first that breaks its map.
    Joins(MapFault),
    /// It is not accepted, first by this.
    Refused(Refusal),
}

/// What a certificate is worth.
///
/// # Errors
///
/// Want of memory.
pub fn find_worth(alloc: Global, program: &Program, cert: &Cert) -> Result<Worth, Memory>
    ensures { IfOk result (λ worth. worth ≡ worth_of program.now (certificate_of cert.now)) }
{
    match check(alloc, program, cert) {
        Ok(Verdict::Right) => Ok(Worth::Right),
        Ok(Verdict::Joins(fault)) => Ok(Worth::Joins(fault)),
        Err(CheckErr::Refused(refusal)) => Ok(Worth::Refused(refusal)),
        Err(CheckErr::Memory) => Err(Memory),
    }
}

/// What it says of a certificate to be worth so much under a program: a law, which computes nothing but that the certificate's rows are
/// in normal form, as those of each `Cert` are. It takes no memory; the recursion is as deep as the certificate.
pub fn see_worth(cert: &Cert)
    ensures { (p : ThisProgram) → Says (worth_of p (certificate_of cert.now)) p (certificate_of cert.now) }
{
    see_rows(cert);
}
