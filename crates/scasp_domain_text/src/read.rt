//! Domain files, from their bytes.
ghost use Rattle.std.specs.Prelude.{◌≡◌, ◌≤◌, ℕ, List, [], length, IfOk};
ghost use Rattle.scasp_answers.specs.Blocks.Files.{split_lines};
ghost use Rattle.scasp_domain_text.specs.Domains as spec;
ghost use Rattle.scasp_domain_text.specs.Names.{domain_names};
ghost use Rattle.scasp_domain_text.specs.View.{Told};
ghost use Rattle.scasp_reader_terms.specs.Names.{place_in};
ghost use Rattle.scasp_syntax.specs.Tm.{items};

use crate::fault::{DomainErr, DomainFault, DomainKind};
use crate::line::{join_line, line_fault, line_len};
use crate::names::add_names;
use scasp_name::Names;
use scasp_tables::Domain;
use std::alloc::Global;

/// The longest file that is read.
pub const BYTE_LIMIT: usize = 4_194_304;

/// What has been read where the last line has ended at the byte `at`, and these bytes are left.
fn ended(domain: Domain, at: usize, rest: &[u8]) -> Result<Domain, DomainErr>
    ensures { (place : List ℕ → ℕ) → Told (spec.members_from place (items domain) at [] rest.now) result }
{
    if !rest.is_empty() {
        return Err(line_fault(at));
    }
    Ok(domain)
}

/// The members that the lines spell, by a table that has their names, or the first fault.
fn read_members(alloc: Global, bytes: &[u8], names: &Names) -> Result<Domain, DomainErr>
    requires { length bytes.now ≤ spec.byte_limit }
    ensures { Told (spec.members_from (place_in names.now) [] 0 (split_lines bytes.now).lines (split_lines bytes.now).rest) result }
{
    let mut domain = Domain::new(alloc, names.keys());
    let mut rest = bytes;
    let mut at = 0;
    while let Some(len) = line_len(rest) {
        join_line(alloc, at, &rest[..len], names, &mut domain)?;
        rest = &rest[len + 1..];
        at += len + 1;
    }
    ended(domain, at, rest)
}

/// The domain that a file spells, a term a line, or the file's first fault with its place. All names of the file are then in the table;
/// after an error it may hold more texts than before.
///
/// # Errors
///
/// `At` with the first line that is no ground term, repeats an earlier one or lacks its line feed, or with the limit of bytes, which is
/// told before any line; `Memory` for want of memory.
#[tactic(auto, unfolding(crate::specs::Domains::domain_in))]
pub fn read_domain(alloc: Global, bytes: &[u8], names: &mut Names) -> Result<Domain, DomainErr>
    ensures read { Told (spec.domain_in (domain_names names.old bytes.now) bytes.now) result }
    ensures names { IfOk result (λ domain. names.new ≡ domain_names names.old bytes.now) }
{
    if bytes.len() > BYTE_LIMIT {
        return Err(DomainErr::At(DomainFault {
            at: BYTE_LIMIT as u64,
            kind: DomainKind::Limit,
        }));
    }
    add_names(alloc, bytes, names)?;
    read_members(alloc, bytes, names)
}
