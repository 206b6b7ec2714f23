//! The domain file of a command.
ghost use Rattle.std.specs.Prelude.{◌≡◌, ◌≤◌, ℕ, List, Ok, IfOk, IfErr};
ghost use Rattle.scasp_command_inputs.specs.Domains as domains;
ghost use Rattle.scasp_command_inputs.specs.Halts.{IfLine};
ghost use Rattle.scasp_command_inputs.specs.Inputs.{outside, Says};
ghost use Rattle.scasp_command_inputs.specs.Texts as spec;
ghost use Rattle.scasp_command_inputs.specs.declared.refusals.Input.TheVariants as input;
ghost use Rattle.scasp_domain_text.specs.Names.{domain_names};
ghost use Rattle.scasp_syntax.specs.Tm.{items};

use crate::halt::{Halt, line};
use crate::refusals::{Input, refusal};
use crate::status::Status;
use scasp_domain_text::{BYTE_LIMIT, DomainErr, DomainFault, DomainKind, read_domain};
use scasp_io::{Files, ReadErr, read_file};
use scasp_name::Names;
use scasp_tables::Domain;
use std::alloc::Global;

/// The word of what is wrong with a domain file.
fn kind_word(kind: DomainKind) -> &'static str
    ensures { result.now ≡ (domains.domain_refusal kind).word }
{
    match kind {
        DomainKind::Line => "Line",
        DomainKind::Limit => "bytes",
    }
}

/// Whether a domain file is too long.
fn is_limit(kind: DomainKind) -> bool
    ensures { result ≡ (domains.domain_refusal kind).limit }
{
    match kind {
        DomainKind::Line => false,
        DomainKind::Limit => true,
    }
}

/// The line of the first fault of a domain file.
fn domain_refusal(alloc: Global, fault: DomainFault) -> Halt
    ensures { IfLine result (Says (spec.refusal_line input.Domain fault.at (domains.domain_refusal fault.kind)) (spec.refusal_status (domains.domain_refusal fault.kind))) }
{
    let word = kind_word(fault.kind);
    refusal(alloc, Input::Domain, fault.at, is_limit(fault.kind), word)
}

/// The members that the bytes spell, read behind these names, and the table of names then; or the line of the first fault.
fn read_members(alloc: Global, bytes: &[u8], mut names: Names) -> Result<(Domain, Names), Halt>
    ensures ok { IfOk result (λ x. domains.members_in names bytes.now ≡ Ok (items x.0)) }
    ensures table { IfOk result (λ x. x.1 ≡ domain_names names bytes.now) }
    ensures err { IfErr result (λ halt. IfLine halt (domains.RefusesDomain names bytes.now)) }
{
    match read_domain(alloc, bytes, &mut names) {
        Ok(domain) => Ok((domain, names)),
        Err(DomainErr::At(fault)) => Err(domain_refusal(alloc, fault)),
        Err(DomainErr::Memory) => Err(Halt::Memory),
    }
}

/// The members of a domain file, read behind the names of earlier files, and the table of names then; or the line that tells why
/// there are none.
pub fn domain_in_file<F: Files>(
    alloc: Global,
    file: &str,
    names: Names,
    files: &mut F,
) -> Result<(Domain, Names), Halt>
    ensures ok { IfOk result (λ x. domains.HasMembers (F.told files.old file.now) names (items x.0) x.1) }
    ensures err { IfErr result (λ halt. IfLine halt (domains.IsNoDomain (outside (F.told files.old) (F.faults files.old) (F.faults files.new)) file.now names)) }
    ensures stays { (other : List ℕ) → F.told files.new other ≡ F.told files.old other }
    ensures counts { (other : List ℕ) → F.faults files.old other ≤ F.faults files.new other }
{
    match read_file(alloc, files, file, BYTE_LIMIT as u64) {
        Ok(bytes) => read_members(alloc, bytes.as_slice(), names),
        Err(ReadErr::Fault) => Err(line(alloc, b"read domain\n", Status::Read)),
        Err(ReadErr::TooLong) => {
            let (at, kind) = (BYTE_LIMIT as u64, DomainKind::Limit);
            Err(domain_refusal(alloc, DomainFault { at, kind }))
        }
        Err(ReadErr::Memory) => Err(Halt::Memory),
    }
}
