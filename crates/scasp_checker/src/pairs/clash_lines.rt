//! Clash lines, which show apart what the terms alone do not.
ghost use Rattle.std.specs.Prelude.{◌≡◌, IfOk};
ghost use Rattle.std.specs.List.{flat_map};
ghost use Rattle.scasp_checker_rules.specs.Pairs.{clash_faults, clash_list, clash_of, is_pair, other_clash};
ghost use Rattle.scasp_checker_rules.specs.Refusals.{fault_at, of_some};
ghost use Rattle.scasp_checker_rules.specs.Told.{all_told};
ghost use Rattle.scasp_cert.specs.Certificate.{certificate_of};
ghost use Rattle.scasp_checker_answer.specs.Judged.{Judges};
ghost use Rattle.scasp_hint.specs.Showing.{fault_of};
ghost use Rattle.scasp_lines.specs.Lines.{free_of};
ghost use Rattle.scasp_checker_lines.specs.LineFaults.Whole.{whole};
ghost use Rattle.scasp_lines_walk.specs.Shown.TableView.{table_value, told_of};
ghost use Rattle.scasp_lines_walk.specs.Shown.Standings.{told_where};
ghost use Rattle.scasp_syntax.specs.Programs.{numbered};
ghost use Rattle.scasp_checker.specs.Pairs.Inside.Against.{Finds};
ghost use Rattle.scasp_checker_lines.specs.TableFaults.Tables.{Tells};

use crate::pairs::clashes::{FirstClashes, clash_between};
use scasp_cert::{Cert, Clash};
use scasp_checker_answer::{CheckErr, want};
use scasp_checker_lines::{Common, accept_hint};
use scasp_checker_rules::{Reason, Refusal};
use scasp_disjoint::{is_pair, pair_list};
use scasp_lines_walk::{Saying, Table};
use scasp_list::Memory;
use scasp_syntax::{Con, Cons};
use std::alloc::Global;

/// What pairs are tested against: the certificate, and its clash lines by their two lines.
#[derive(Drop)]
pub(crate) struct Against<'a> {
    pub(crate) cert: &'a Cert,
    pub(crate) clashes: FirstClashes<'a>,
}

/// The list of the pair as its clash line names the two.
fn clash_list(
    alloc: Global,
    free: u64,
    given: &[Con],
    first: &Saying,
    second: &Saying,
    clash: &Clash,
) -> Result<Cons, Memory>
    ensures { IfOk result (λ made. made ≡ clash_list free given.now (told_of first.now) (told_of second.now) clash.now) }
{
    if clash.first == first.at {
        pair_list(alloc, free, given, first, second)
    } else {
        pair_list(alloc, free, given, second, first)
    }
}

/// Tests that the clash line of the two literals shows them apart.
pub(crate) fn accept_clash(
    alloc: Global,
    against: &Against,
    first: &Saying,
    second: &Saying,
) -> Result<(), CheckErr>
    requires { Finds against.now }
    ensures { Judges result (clash_faults (free_of (certificate_of against.now.cert.now)) against.now.cert.now.given (told_of first.now) (told_of second.now) (clash_of first.now.at second.now.at against.now.cert.now.clashes)) }
{
    match clash_between(&against.clashes, first.at, second.at) {
        None => Err(CheckErr::Refused(Refusal {
            at: first.at,
            reason: Reason::Clash,
        })),
        Some(clash) => accept_clash_line(alloc, against.cert, first, second, clash),
    }
}

/// Tests that this clash line shows the two literals apart.
fn accept_clash_line(
    alloc: Global,
    cert: &Cert,
    first: &Saying,
    second: &Saying,
    clash: &Clash,
) -> Result<(), CheckErr>
    ensures { Judges result (fault_at first.now.at (fault_of (clash_list (free_of (certificate_of cert.now)) cert.now.given (told_of first.now) (told_of second.now) clash.now) clash.now.hint)) }
{
    let free = cert.sample.len() as u64;
    let list = clash_list(alloc, free, cert.given.as_slice(), first, second, clash)?;
    accept_hint(alloc, first.at, list.as_slice(), &clash.hint)
}

/// Whether the clash line is of a pair.
fn is_of_pair(table: &Table, clash: &Clash) -> bool
    ensures { result ≡ of_some (told_where (numbered (table_value table.now) clash.now.first)) (λ a. of_some (told_where (numbered (table_value table.now) clash.now.second)) (is_pair a)) }
{
    match (table.saying(clash.first), table.saying(clash.second)) {
        (Some(first), Some(second)) => is_pair(first, second),
        (Some(_), None) | (None, _) => false,
    }
}

/// Tests that each clash line is of a pair.
pub(crate) fn accept_clash_lines(common: &Common, table: &Table) -> Result<(), CheckErr>
    requires { Tells table.now common.now }
    ensures { Judges result (flat_map (other_clash (all_told (whole common.now).lines)) (certificate_of common.now.cert.now).clashes) }
{
    for clash in common.cert.clashes.as_slice() {
        let at = clash.first.min(clash.second);
        want(at, Reason::Clash, is_of_pair(table, clash))?;
    }
    Ok(())
}
