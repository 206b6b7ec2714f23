//! What a tree of the written search comes to.
ghost use Rattle.std.specs.Prelude.{◌≡◌, IfOk, if◌then◌else◌};
ghost use Rattle.scasp_cert.specs.Certificate.{certificate_of};
ghost use Rattle.scasp_fill.specs.Finishing.Finishes.{Finishes};

use crate::filling::{Filled, fill};
use scasp_cert::Cert;
use scasp_checker::{CheckErr, Verdict, check};
use scasp_law_promise::see_rows;
use scasp_list::Memory;
use scasp_syntax::Program;
use std::alloc::Global;

/// What a tree of the written search comes to.
#[derive(Drop)]
pub enum Finished {
    /// The tree with hints and clash lines, which is right.
    Answer(Cert),
    /// With no hints and clash lines the tree is accepted.
    Passed,
    /// A list of constraints that is asked about the tree overflows, and what was found does not make it right.
    Overflow,
}

/// Gives the tree of a certificate the hints and clash lines that are found, and checks it. Nothing else that is told of
/// the certificate is changed.
///
/// # Errors
///
/// Want of memory.
pub fn finish(alloc: Global, program: &Program, cert: &Cert) -> Result<Finished, Memory>
    ensures { IfOk result (λ finished. Finishes program.now (certificate_of cert.now) finished) }
{
    see_rows(cert);
    let filled = fill(alloc, program, cert)?;
    match check(alloc, program, &filled.cert) {
        Ok(Verdict::Right) => Ok(Finished::Answer(cert_in(filled))),
        Ok(Verdict::Joins(_)) => Ok(Finished::Passed),
        Err(CheckErr::Refused(_)) => Ok(refused(filled.known)),
        Err(CheckErr::Memory) => Err(Memory),
    }
}

fn cert_in(filled: Filled) -> Cert
    ensures { result ≡ filled.cert }
{
    let Filled { cert, .. } = filled;
    cert
}

/// What a tree comes to whose filled form is refused, where it is known that nothing else serves, or is not.
fn refused(known: bool) -> Finished
    ensures { result ≡ (if known then Finished.Passed else Finished.Overflow) }
{
    if known {
        Finished::Passed
    } else {
        Finished::Overflow
    }
}
