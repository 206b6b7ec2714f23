//! The filled form of a certificate.
ghost use Rattle.std.specs.Prelude.{◌≡◌, ◌&&◌, IfOk, map};
ghost use Rattle.scasp_cert.specs.Certificate.{certificate_of, checks_of};
ghost use Rattle.scasp_cert.specs.View.{trees_of};
ghost use Rattle.scasp_fill.specs.Filling.Filled.{filled, is_filling_known};
ghost use Rattle.scasp_fill.specs.Filling.Inside.Pieces.{hinted_value, made_of};

use crate::filling::clashes::{Clashing, clashes_found};
use crate::filling::hints::{HintedLines, hinted_lines};
use crate::filling::rebuilding::rebuilt;
use scasp_cert::{Cert, Checks, Clashes, Nodes};
use scasp_list::Memory;
use scasp_syntax::{DeepCopy, Program, copy_terms};
use std::alloc::Global;

/// A certificate with the hints and clash lines that are found; and whether it is known that it is accepted with these if
/// it is accepted with any: no list overflowed that could hide another.
#[derive(Drop)]
pub struct Filled {
    pub cert: Cert,
    pub known: bool,
}

/// The certificate with these trees, checks and clash lines.
fn with_parts(
    alloc: Global,
    cert: &Cert,
    trees: Nodes,
    checks: Checks,
    clashes: Clashes,
) -> Result<Cert, Memory>
    ensures { IfOk result (λ made. certificate_of made ≡ record (certificate_of cert.now) { trees = trees_of trees; checks = checks_of checks; clashes = clashes }) }
{
    Ok(Cert {
        query: cert.query,
        terms: copy_terms(alloc, &cert.terms)?,
        given: cert.given.copy(alloc)?,
        sample: copy_terms(alloc, &cert.sample)?,
        trees,
        checks,
        clashes,
        map: cert.map.copy(alloc)?,
    })
}

/// The certificate with these hints and clash lines.
fn filled_with(
    alloc: Global,
    cert: &Cert,
    hinted: HintedLines,
    clashing: Clashing,
) -> Result<Filled, Memory>
    ensures cert { IfOk result (λ made. certificate_of made.cert ≡ made_of (certificate_of cert.now) (map hinted_value hinted.entry.all.items) clashing.clashes) }
    ensures known { IfOk result (λ made. made.known ≡ (hinted.entry.known && clashing.known)) }
{
    let HintedLines {
        all,
        known: hints_known,
    } = hinted;
    let Clashing {
        clashes,
        known: clashes_known,
    } = clashing;
    let parts = rebuilt(alloc, all)?;
    Ok(Filled {
        cert: with_parts(alloc, cert, parts.0, parts.1, clashes)?,
        known: hints_known && clashes_known,
    })
}

/// The certificate with the hint that is found for each line that asks one, and a clash line for each pair that its terms do
/// not show apart, where one is found.
///
/// # Errors
///
/// Want of memory, and numbers of lines or variables past their range.
pub fn fill(alloc: Global, program: &Program, cert: &Cert) -> Result<Filled, Memory>
    ensures filled { IfOk result (λ made. certificate_of made.cert ≡ filled program.now (certificate_of cert.now)) }
    ensures known { IfOk result (λ made. made.known ≡ is_filling_known program.now (certificate_of cert.now)) }
{
    let hinted = hinted_lines(alloc, program, cert)?;
    let clashing = clashes_found(alloc, program, cert)?;
    filled_with(alloc, cert, hinted, clashing)
}
