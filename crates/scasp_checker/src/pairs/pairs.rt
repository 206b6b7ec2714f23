//! Pairs of literals, which have to be shown apart.
ghost use Rattle.std.specs.Prelude.{◌≡◌, IfOk, is_none, map};
ghost use Rattle.std.specs.List.{flat_map};
ghost use Rattle.scasp_checker_rules.specs.Faults.{apart_faults};
ghost use Rattle.scasp_checker_rules.specs.Pairs.{all_pairs, pair_faults};
ghost use Rattle.scasp_checker_rules.specs.PairLists.{pair_list};
ghost use Rattle.scasp_checker_rules.specs.Told.{all_told};
ghost use Rattle.scasp_cert.specs.Certificate.{certificate_of};
ghost use Rattle.scasp_checker_answer.specs.Judged.{Judges};
ghost use Rattle.scasp_hint.specs.Showing.{fault_of};
ghost use Rattle.scasp_lines.specs.Lines.{free_of};
ghost use Rattle.scasp_checker_lines.specs.LineFaults.Whole.{whole};
ghost use Rattle.scasp_lines_walk.specs.Shown.TableView.{table_value, told_from, told_of};
ghost use Rattle.scasp_lines_walk.specs.Shown.Standings.{told_by};
ghost use Rattle.scasp_syntax.specs.declared.hint.Hint.TheVariants as hint;
ghost use Rattle.scasp_checker.specs.Pairs.Inside.Against.{Finds};
ghost use Rattle.scasp_checker.specs.Pairs.Inside.Groups.{group_faults};
ghost use Rattle.scasp_checker.specs.Partners.Partners.{group_of};
ghost use Rattle.scasp_checker_lines.specs.TableFaults.Tables.{Tells};

use crate::pairs::clash_lines::{Against, accept_clash, accept_clash_lines};
use crate::pairs::clashes::first_clashes;
use crate::partners::{Partners, differ_by_names, items_in, partners_of};
use scasp_cert::Cert;
use scasp_checker_answer::CheckErr;
use scasp_checker_lines::Common;
use scasp_disjoint::pair_list;
use scasp_hint::{HintErr, unsat};
use scasp_lines_walk::{Saying, Table};
use scasp_list::Memory;
use scasp_syntax::{Con, Hint};
use std::alloc::Global;

/// Whether the terms show the two literals apart.
fn differ_by_terms(
    alloc: Global,
    cert: &Cert,
    first: &Saying,
    second: &Saying,
) -> Result<bool, Memory>
    ensures { IfOk result (λ is. is ≡ is_none (fault_of (pair_list (free_of (certificate_of cert.now)) cert.now.given (told_of first.now) (told_of second.now)) hint.Terms)) }
{
    if differ_by_names(alloc, first, second)? {
        return Ok(true);
    }
    let free = cert.sample.len() as u64;
    let list = pair_list(alloc, free, cert.given.as_slice(), first, second)?;
    is_shown(alloc, list.as_slice())
}

/// Whether the terms show that the list has no valuation.
fn is_shown(alloc: Global, list: &[Con]) -> Result<bool, Memory>
    ensures { IfOk result (λ is. is ≡ is_none (fault_of list.now hint.Terms)) }
{
    match unsat(alloc, list, &Hint::Terms) {
        Ok(()) => Ok(true),
        Err(HintErr::Fault(_)) => Ok(false),
        Err(HintErr::Memory) => Err(Memory),
    }
}

/// Tests that the two literals of a pair are shown apart, by their terms or by their clash line. It makes no list where they
/// differ by a name or a number.
fn accept_pair(
    alloc: Global,
    against: &Against,
    first: &Saying,
    second: &Saying,
) -> Result<(), CheckErr>
    requires { Finds against.now }
    ensures { Judges result (pair_faults (free_of (certificate_of against.now.cert.now)) against.now.cert.now.given against.now.cert.now.clashes (told_of first.now, told_of second.now)) }
{
    if differ_by_terms(alloc, against.cert, first, second)? {
        return Ok(());
    }
    accept_clash(alloc, against, first, second)
}

/// Tests the pairs of this literal with these.
fn accept_each(
    alloc: Global,
    against: &Against,
    first: &Saying,
    seconds: &[&&Saying],
) -> Result<(), CheckErr>
    requires { Finds against.now }
    ensures { Judges result (group_faults (free_of (certificate_of against.now.cert.now)) against.now.cert.now.given against.now.cert.now.clashes (told_of first.now, map (λ s. told_from s.now) seconds.now)) }
{
    for second in seconds {
        accept_pair(alloc, against, first, second)?;
    }
    Ok(())
}

/// Tests the pairs of one literal.
fn accept_partners(alloc: Global, against: &Against, partners: &Partners) -> Result<(), CheckErr>
    requires { Finds against.now }
    ensures { Judges result (group_faults (free_of (certificate_of against.now.cert.now)) against.now.cert.now.given against.now.cert.now.clashes (group_of partners.now)) }
{
    let seconds = items_in(alloc, &partners.behind)?;
    accept_each(alloc, against, partners.first, seconds.as_slice())
}

/// Tests all pairs, by their first literal and then by the second.
fn accept_pairs(alloc: Global, against: &Against, table: &Table) -> Result<(), CheckErr>
    requires { Finds against.now }
    ensures { Judges result (flat_map (pair_faults (free_of (certificate_of against.now.cert.now)) against.now.cert.now.given against.now.cert.now.clashes) (all_pairs (flat_map told_by (table_value table.now)))) }
{
    let sayings = table.sayings(alloc)?;
    let mut left = partners_of(alloc, sayings)?;
    while let Some(partners) = left.pop() {
        accept_partners(alloc, against, &partners)?;
    }
    Ok(())
}

/// Tests that each positive and each negated literal of one predicate are shown apart, and that each clash line is of such
/// a pair. Literals are looked for by their predicate and sign, and clash lines by their two lines.
pub fn accept_apart(alloc: Global, common: &Common, table: &Table) -> Result<(), CheckErr>
    requires { Tells table.now common.now }
    ensures { Judges result (apart_faults (certificate_of common.now.cert.now) (all_told (whole common.now).lines)) }
{
    let cert = common.cert;
    let clashes = first_clashes(alloc, &cert.clashes)?;
    let against = Against { cert, clashes };
    accept_pairs(alloc, &against, table)?;
    accept_clash_lines(common, table)
}
