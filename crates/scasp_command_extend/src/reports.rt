//! What is reported of a block.
ghost use Rattle.std.specs.Prelude.{◌≡◌, ◌++◌, List, IsTrue, IfOk, codes};
ghost use Rattle.scasp_cert.specs.Certificate.{certificate_of};
ghost use Rattle.scasp_command_extend.specs.Ends as ends;
ghost use Rattle.scasp_command_extend.specs.Inside.{IsInTheWay, Reported};
ghost use Rattle.scasp_command_extend.specs.Outcomes.{model, outcome_of};
ghost use Rattle.scasp_command_extend.specs.Texts as spec;
ghost use Rattle.scasp_model.specs.Atoms.{SameAtoms, are_distinct};
ghost use Rattle.scasp_syntax.specs.Tm.{items};
ghost use Rattle.scasp_syntax.specs.declared.atom.Atom.{Atom as ThisAtom};

use crate::ends::Extended;
use crate::lines::{put_model, put_obstacle};
use scasp_answers::Block;
use scasp_cert::Cert;
use scasp_extend::{ExtendErr, extend};
use scasp_list::Memory;
use scasp_name::Names;
use scasp_print_words::{put, put_number};
use scasp_syntax::{Atom, Program};
use scasp_tables::Domain;
use std::alloc::Global;

/// What is written of a block, and how its extension ends.
#[derive(Drop)]
pub(crate) struct Report {
    pub text: Vec<u8>,
    pub end: Extended,
}

/// The text of the answer of this number, as far as its numbers.
fn block_head(alloc: Global, answer: u64, cert: &Cert) -> Result<Vec<u8>, Memory>
    ensures { IfOk result (λ text. text.items ≡ spec.block_head answer (certificate_of cert.now)) }
{
    let mut text = Vec::new(alloc);
    put_number(&mut text, cert.query)?;
    put(&mut text, ".")?;
    put_number(&mut text, answer)?;
    put(&mut text, " ")?;
    Ok(text)
}

/// The report of a block above which there is a model; none of its atoms stands twice.
fn model_report(
    alloc: Global,
    names: &Names,
    answer: u64,
    cert: &Cert,
    atoms: &[Atom],
) -> Result<Report, Memory>
    requires { IsTrue (are_distinct atoms.now) }
    ensures { (set : List ThisAtom) → SameAtoms atoms.now set → IfOk result (λ report. Reported names.now answer (certificate_of cert.now) (model set) report) }
{
    let mut text = block_head(alloc, answer, cert)?;
    put_model(alloc, &mut text, names, atoms)?;
    Ok(Report {
        text,
        end: Extended::Models,
    })
}

/// How the extension of a block ends in whose way this stands. Want of memory stands in no way.
fn obstacle_end(why: ExtendErr) -> Result<Extended, Memory>
    ensures end { IfOk result (λ end. end ≡ ends.obstacle_end why) }
    ensures stands { IfOk result (λ _. IsInTheWay why) }
{
    match why {
        ExtendErr::Refused(_) => Ok(Extended::Refused),
        ExtendErr::Joins(_)
        | ExtendErr::Given
        | ExtendErr::TooLarge
        | ExtendErr::Overflow
        | ExtendErr::NotClosed { .. } => Ok(Extended::NoModel),
        ExtendErr::Memory => Err(Memory),
    }
}

/// The report of a block in whose way this stands. Want of memory stands in no way.
fn obstacle_report(
    alloc: Global,
    answer: u64,
    cert: &Cert,
    why: ExtendErr,
) -> Result<Report, Memory>
    ensures text { IfOk result (λ report. report.text.items ≡ spec.block_head answer (certificate_of cert.now) ++ (spec.obstacle_words why ++ codes "\n")) }
    ensures end { IfOk result (λ report. report.end ≡ ends.obstacle_end why) }
    ensures stands { IfOk result (λ _. IsInTheWay why) }
{
    let end = obstacle_end(why)?;
    let mut text = block_head(alloc, answer, cert)?;
    put_obstacle(&mut text, why)?;
    put(&mut text, "\n")?;
    Ok(Report { text, end })
}

/// The report of a block.
pub(crate) fn block_report(
    alloc: Global,
    program: &Program,
    names: &Names,
    domain: &Domain,
    block: &Block,
) -> Result<Report, Memory>
    ensures { IfOk result (λ report. Reported names.now block.now.answer (certificate_of block.now.cert) (outcome_of program.now (items domain.now) (certificate_of block.now.cert)) report) }
{
    let cert = &block.cert;
    match extend(alloc, program, cert, &cert.sample, domain) {
        Ok(atoms) => model_report(alloc, names, block.answer, cert, atoms.as_slice()),
        Err(why) => obstacle_report(alloc, block.answer, cert, why),
    }
}
