//! A line of a domain file.
ghost use Rattle.std.specs.Prelude.{◌≡◌, ◌+◌, ◌<◌, ◌^◌, ◌==◌, not, length, IfSome};
ghost use Rattle.std.specs.List.{prefix_len};
ghost use Rattle.scasp_answers.specs.Files.Inside.{Splits};
ghost use Rattle.scasp_domain_text.specs.Domains as spec;
ghost use Rattle.scasp_domain_text.specs.Inside.{Finds, Joins};
ghost use Rattle.scasp_reader_terms.specs.Names.{place_in};
ghost use Rattle.scasp_syntax.specs.Tm.{items};
ghost use Rattle.scasp_syntax.specs.View.{tm_of};
ghost use Rattle.scasp_tables.specs.Tables.{is_member};

use crate::fault::{DomainErr, DomainFault, DomainKind};
use scasp_answers_terms::{Cursor, Stop, term};
use scasp_name::Names;
use scasp_syntax::Term;
use scasp_tables::{Domain, Pushed};
use std::alloc::Global;

/// The number of bytes before the first line feed.
fn bytes_before_feed(bytes: &[u8]) -> usize
    ensures { result ≡ prefix_len (λ b. not (b == 10)) bytes.now }
{
    bytes.iter().take_while(|b| **b != b'\n').count()
}

/// The number of bytes before the first line feed, where there is one.
pub(crate) fn line_len(bytes: &[u8]) -> Option<usize>
    ensures within { IfSome result (λ len. len < length bytes.now) }
    ensures room { IfSome result (λ len. len + 1 < 2 ^ 64) }
    ensures splits { Splits bytes.now result }
{
    let len = bytes_before_feed(bytes);
    if len < bytes.len() { Some(len) } else { None }
}

/// The fault of the line that begins at this byte.
pub(crate) fn line_fault(at: usize) -> DomainErr
    ensures { result ≡ DomainErr.At (record { at = at; kind = DomainKind.Line }) }
{
    DomainErr::At(DomainFault {
        at: at as u64,
        kind: DomainKind::Line,
    })
}

/// The term that the line is, without its line feed, if it is one.
#[tactic(auto, unfolding(crate::specs::Domains::term_in))]
fn term_in(alloc: Global, line: &[u8], names: &Names) -> Result<Term, Stop>
    ensures { Finds (spec.term_in (place_in names.now) line.now) result }
{
    let mut cursor = Cursor::new(line);
    let term = term(alloc, &mut cursor, names)?;
    if !cursor.is_over() {
        drop(term);
        return Err(Stop::NoForm);
    }
    Ok(term)
}

/// Makes the term of the line that begins at this byte the last member, where it may be one.
fn join_term(alloc: Global, at: usize, term: Term, domain: &mut Domain) -> Result<(), DomainErr>
    ensures { Joins at (spec.joined (items domain.old) (Some (tm_of term))) result domain.new }
{
    match domain.push(alloc, term)? {
        Pushed::Added => Ok(()),
        Pushed::NotGround | Pushed::Repeated => Err(line_fault(at)),
    }
}

/// Makes the term of the line that begins at this byte the last member, where it has one that may be one.
pub(crate) fn join_line(
    alloc: Global,
    at: usize,
    line: &[u8],
    names: &Names,
    domain: &mut Domain,
) -> Result<(), DomainErr>
    ensures { Joins at (spec.joined (items domain.old) (spec.term_in (place_in names.now) line.now)) result domain.new }
{
    match term_in(alloc, line, names) {
        Ok(term) => join_term(alloc, at, term, domain),
        Err(Stop::NoForm) => Err(line_fault(at)),
        Err(Stop::Memory) => Err(DomainErr::Memory),
    }
}
