//! The list of checks of a program.
ghost use Rattle.std.specs.Prelude.{◌≡◌, map, IfOk};
ghost use Rattle.scasp_graph.specs.Analyses.{IsAnalysis};
ghost use Rattle.scasp_graph.specs.Map.{MapHolds};
ghost use Rattle.scasp_nmr.specs.Inside.Beside.{begins_with, behind};
ghost use Rattle.scasp_nmr.specs.Checks.{checks_of, clause_in};

use crate::items::{CheckItem, CheckItems};
use scasp_graph::Analysis;
use scasp_name::Memory;
use scasp_syntax::{Program, Sequence};
use std::alloc::Global;

/// Whether the number is the first of the list, and the numbers behind it if so, else all.
fn take_first(numbers: &[u64], number: u64) -> (bool, &[u64])
    ensures first { result.0 ≡ begins_with number numbers.now }
    ensures rest { result.1.now ≡ behind number numbers.now }
{
    match numbers.split_first() {
        Some((first, rest)) => {
            if number == *first {
                return (true, rest);
            }
            (false, numbers)
        }
        None => (false, numbers),
    }
}

/// The denials and the odd rules by clause number. It needs the analysis of this very program.
pub fn checks(alloc: Global, program: &Program, analysis: &Analysis) -> Result<CheckItems, Memory>
    requires { IsAnalysis program.now analysis.now }
    ensures items { IfOk result (λ items. items ≡ checks_of program.now analysis.now.odd_rules) }
    ensures covers { IfOk result (λ items. MapHolds program.now (map clause_in items) analysis.now.map) }
{
    let mut items = Sequence::new(alloc);
    let mut odd = analysis.odd_rules.as_slice();
    for (place, clause) in program.clauses.as_slice().iter().enumerate() {
        let number = place as u64 + 1;
        let head = clause.head.is_some();
        let (is_odd, rest) = take_first(odd, number);
        odd = rest;
        if is_odd || !head {
            items.push(CheckItem {
                clause: number,
                head,
            })?;
        }
    }
    Ok(items)
}
