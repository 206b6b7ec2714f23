//! Contexts and pairs of a certificate, by the numbers of their lines.
ghost use Rattle.std.specs.Prelude.{◌≡◌, IfOk, option_map};
ghost use Rattle.scasp_cert.specs.Certificate.{certificate_of};
ghost use Rattle.scasp_disjoint.specs.ByLines.{Answers, context_on, list_of_pair, pair_of, pair_on, told_both};
ghost use Rattle.scasp_hint.specs.Showing.{fault_of};
ghost use Rattle.scasp_lines_walk.specs.Shown.Standings.{told_where};
ghost use Rattle.scasp_lines_walk.specs.Shown.TableView.{table_value};
ghost use Rattle.scasp_syntax.specs.Programs.{numbered};

use crate::pairs::{is_pair, pair_list};
use scasp_cert::Cert;
use scasp_hint::{HintErr, HintFault, unsat};
use scasp_lines_walk::{Saying, Table, table_of};
use scasp_list::Memory;
use scasp_syntax::{Cons, Hint, Program};
use std::alloc::Global;
use thiserror::Error;

/// Why two lines are not shown apart: the first fault of the hint, that they are no positive and no negated literal of one
/// predicate, or want of memory.
#[derive(Clone, Copy, Debug, PartialEq, Eq, Error)]
pub enum ApartErr {
    #[error("{0}")]
    Fault(HintFault),
    #[error("not a positive and a negated literal of one predicate")]
    Wrong,
    #[error("out of memory")]
    Memory,
}

impl From<Memory> for ApartErr {
    ghost use Rattle.std.specs.Prelude.{◌≡◌};
    ghost use Rattle.scasp_disjoint.specs.declared.by_lines.ApartErr.TheVariants as errors;

    ghost from_gives = { λ _ e. e ≡ errors.Memory };

    fn from(_memory: Memory) -> ApartErr {
        ApartErr::Memory
    }
}

/// The context of the line of this number: the given constraints, and then those of what opened on the way to it. None
/// where there is no such line.
pub fn context(
    alloc: Global,
    program: &Program,
    cert: &Cert,
    line: u64,
) -> Result<Option<Cons>, Memory>
    ensures { IfOk result (λ made. made ≡ context_on program.now (certificate_of cert.now) line) }
{
    let table = table_of(alloc, program, cert)?;
    match table.line(line) {
        None => Ok(None),
        Some(row) => {
            let list = scasp_lines_places::context(alloc, cert.given.as_slice(), row.opened())?;
            Ok(Some(list))
        }
    }
}

/// The literals on the two lines, where one is positive and the other negated, and they are of one predicate.
fn pair_in(table: &Table, first: u64, second: u64) -> Option<(&Saying, &Saying)>
    ensures { option_map told_both result ≡ pair_of (told_where (numbered (table_value table.now) first)) (told_where (numbered (table_value table.now) second)) }
{
    let first = table.saying(first)?;
    let second = table.saying(second)?;
    if is_pair(first, second) {
        Some((first, second))
    } else {
        None
    }
}

/// The list of constraints that the literals on the two lines meet where they have one atom, with the variables of the
/// second raised above the first. None where they are no positive and no negated literal of one predicate.
pub fn pair(
    alloc: Global,
    program: &Program,
    cert: &Cert,
    first: u64,
    second: u64,
) -> Result<Option<Cons>, Memory>
    ensures { IfOk result (λ made. made ≡ option_map (list_of_pair (certificate_of cert.now)) (pair_on program.now (certificate_of cert.now) first second)) }
{
    let table = table_of(alloc, program, cert)?;
    let free = cert.sample.len() as u64;
    match pair_in(&table, first, second) {
        None => Ok(None),
        Some(both) => {
            let list = pair_list(alloc, free, cert.given.as_slice(), both.0, both.1)?;
            Ok(Some(list))
        }
    }
}

/// Whether the hint shows that the literals on the two lines have no atom in common, each at an instance of its own line.
pub fn apart(
    alloc: Global,
    program: &Program,
    cert: &Cert,
    first: u64,
    second: u64,
    hint: &Hint,
) -> Result<(), ApartErr>
    ensures { Answers result (option_map (λ ab. fault_of (list_of_pair (certificate_of cert.now) ab) hint.now) (pair_on program.now (certificate_of cert.now) first second)) }
{
    match pair(alloc, program, cert, first, second)? {
        None => Err(ApartErr::Wrong),
        Some(list) => match unsat(alloc, list.as_slice(), hint) {
            Ok(()) => Ok(()),
            Err(HintErr::Fault(fault)) => Err(ApartErr::Fault(fault)),
            Err(HintErr::Memory) => Err(ApartErr::Memory),
        },
    }
}
