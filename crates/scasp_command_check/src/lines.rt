//! The lines that are written.
ghost use Rattle.std.specs.Prelude.{◌≡◌, ◌++◌, IfOk, OnOk};
ghost use Rattle.scasp_cert.specs.Certificate.{certificate_of};
ghost use Rattle.scasp_command_check.specs.Texts as spec;

use crate::worth::Worth;
use scasp_cert::{Cert, flat};
use scasp_checker::Reason;
use scasp_list::Memory;
use scasp_print_words::{put, put_number};
use std::alloc::Global;

/// A reason in words.
pub fn reason_words(reason: Reason) -> &'static str
    ensures { result.now ≡ spec.reason_words reason }
{
    match reason {
        Reason::WrongQuery => "wrong query",
        Reason::WrongVariable => "wrong variable",
        Reason::WrongNode => "wrong node",
        Reason::WrongLiteral => "wrong literal",
        Reason::WrongRule => "wrong rule",
        Reason::WrongInstance => "wrong instance",
        Reason::WrongChildren => "wrong children",
        Reason::UncoveredCase => "uncovered case",
        Reason::WrongItem => "wrong item",
        Reason::WrongSplit => "wrong split",
        Reason::NoAncestor => "no ancestor",
        Reason::LoopWithoutNegation => "loop without negation",
        Reason::NotInScope => "not in scope",
        Reason::HintStep => "hint step",
        Reason::HintOverflow => "hint overflow",
        Reason::HintNotReached => "hint not reached",
        Reason::Clash => "clash",
        Reason::Sample => "sample",
        Reason::WrongCheck => "wrong check",
        Reason::WrongMap => "wrong map",
    }
}

/// Puts over which domains the certificate speaks at the end.
fn put_domain(line: &mut Vec<u8>, cert: &Cert) -> Result<(), Memory>
    ensures { OnOk result (line.new.items ≡ line.old.items ++ spec.domain_words (certificate_of cert.now)) }
{
    let any = flat(*line.allocator(), cert)?;
    put(line, if any { " any" } else { " closed" })
}

/// Puts what the certificate is worth at the end.
fn put_worth(line: &mut Vec<u8>, worth: Worth, cert: &Cert) -> Result<(), Memory>
    ensures { OnOk result (line.new.items ≡ line.old.items ++ spec.worth_words worth (certificate_of cert.now)) }
{
    match worth {
        Worth::Right => {
            put(line, "right")?;
            put_domain(line, cert)
        }
        Worth::Joins(fault) => {
            put(line, "joins ")?;
            put_number(line, fault.rule)?;
            put_domain(line, cert)
        }
        Worth::Refused(refusal) => {
            put(line, "refused ")?;
            put_number(line, refusal.at)?;
            put(line, " ")?;
            put(line, reason_words(refusal.reason))
        }
    }
}

/// The line of the answer of this number, whose certificate is worth so much.
///
/// # Errors
///
/// Want of memory.
#[tactic(auto, unfolding(crate::specs::Texts::line_by))]
pub fn block_line(alloc: Global, answer: u64, cert: &Cert, worth: Worth) -> Result<Vec<u8>, Memory>
    ensures { IfOk result (λ line. line.items ≡ spec.line_by worth answer (certificate_of cert.now)) }
{
    let mut line = Vec::new(alloc);
    put_number(&mut line, cert.query)?;
    put(&mut line, ".")?;
    put_number(&mut line, answer)?;
    put(&mut line, " ")?;
    put_worth(&mut line, worth, cert)?;
    put(&mut line, "\n")?;
    Ok(line)
}

/// The last line, which tells the number of blocks.
#[tactic(auto, unfolding(crate::specs::Texts::checked_line))]
pub fn checked_line(alloc: Global, blocks: u64) -> Result<Vec<u8>, Memory>
    ensures { IfOk result (λ line. line.items ≡ spec.checked_line blocks) }
{
    let mut line = Vec::new(alloc);
    put(&mut line, "checked ")?;
    put_number(&mut line, blocks)?;
    put(&mut line, "\n")?;
    Ok(line)
}
