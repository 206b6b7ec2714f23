//! The test of a line of a literal that was shown before.
ghost use Rattle.std.specs.Prelude.{◌≡◌};
ghost use Rattle.scasp_checker_rules.specs.LineFaults.{node_faults};
ghost use Rattle.scasp_cert.specs.Trees.{seen_tree};
ghost use Rattle.scasp_lines_places.specs.Dues.DueView.{due_value};
ghost use Rattle.scasp_checker_answer.specs.Judged.{Judges};
ghost use Rattle.scasp_checker_lines.specs.LineFaults.Whole.{whole};
ghost use Rattle.scasp_lines_places.specs.Places.View.{place_of};
ghost use Rattle.scasp_checker_lines.specs.TableFaults.Tables.{Tells};

use crate::line_faults::Common;
use scasp_checker_answer::CheckErr;
use scasp_lines_places::{Due, Place};
use scasp_lines_walk::{Table, shown_at};
use scasp_syntax::Lit;
use std::alloc::Global;

/// Tests a line of a literal that was shown before, on line `to`. The table is that of the certificate's lines.
pub fn accept_seen(
    alloc: Global,
    common: &Common,
    table: &Table,
    at: u64,
    here: &Place,
    due: &Due,
    lit: &Lit,
    to: u64,
) -> Result<(), CheckErr>
    requires { Tells table.now common.now }
    ensures { Judges result (node_faults (whole common.now) at (place_of here.now) (due_value due.now) (seen_tree lit.now to)) }
{
    let is_shown = shown_at(alloc, table, lit, to, at, here)?;
    crate::node_faults::accept_seen(alloc, common, at, here, due, lit, is_shown)
}
