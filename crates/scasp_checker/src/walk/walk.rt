//! The walk over all lines of a certificate.
ghost use Rattle.std.specs.Prelude.{◌≡◌, ◌+◌, IfOk, OnOk, length};
ghost use Rattle.std.specs.List.{flat_map};
ghost use Rattle.scasp_checker_rules.specs.LineFaults.{line_faults};
ghost use Rattle.scasp_checker_answer.specs.Judged.{Judges};
ghost use Rattle.scasp_checker_lines.specs.LineFaults.Whole.{whole};
ghost use Rattle.scasp_lines.specs.Contexts.{context as context_of};
ghost use Rattle.scasp_lines_places.specs.Places.View.{all_opened};
ghost use Rattle.scasp_checker_lines.specs.TableFaults.Tables.{Tells};
ghost use Rattle.scasp_lines_walk.specs.Traversal.View.{line_of};
ghost use Rattle.scasp_checker.specs.Walk.Checked.{AreBelow, last_check};
ghost use Rattle.scasp_checker.specs.Walk.Contexts.{GoesOnFrom};
ghost use Rattle.scasp_checker.specs.Walk.Rules.{HasRules};

use crate::walk::lines::accept_line;
use crate::walk::rules::{Rules, rules_of};
use crate::walk::tabled::Tabled;
use scasp_cert::Cert;
use scasp_checker_answer::CheckErr;
use scasp_lines_places::change_context;
use scasp_lines_walk::{Line, Lines, Part};
use scasp_list::Memory;
use scasp_syntax::{Con, DeepCopy};
use std::alloc::Global;

/// The clause that is checked on the line, or the one that was checked before.
fn last_check(line: &Line, before: u64) -> u64
    ensures { result ≡ last_check (line_of line.now).part before }
{
    match &line.part {
        Part::Check { clause, .. } => *clause,
        Part::Node { .. } | Part::Rule { .. } | Part::Case { .. } => before,
    }
}

/// How many constraints of the line before stay: those that are given, and the first of those that opened.
fn kept_of(cert: &Cert, line: &Line) -> Result<usize, Memory>
    ensures { IfOk result (λ kept. kept ≡ length cert.now.given + line.now.kept) }
{
    cert.given.len().checked_add(line.kept).ok_or(Memory)
}

/// Changes the list of the context of the line before to that of this line. What both have stays in it.
fn change_to(alloc: Global, cert: &Cert, context: &mut Vec<Con>, line: &Line) -> Result<(), Memory>
    requires { GoesOnFrom cert.now.given context.old.items line.now }
    ensures { OnOk result (context.new.items ≡ context_of cert.now.given (all_opened line.now.here.opened)) }
{
    let kept = kept_of(cert, line)?;
    let more = line.size - line.kept;
    change_context(alloc, context, kept, more, &line.here.opened)?;
    Ok(())
}

/// Tests a line, where `context` is the list of the context of the line before, and then that of this line, and `before` the
/// clause that was checked last on lines before it, or 0; the clause that is checked last then.
fn accept_next(
    alloc: Global,
    tabled: &Tabled,
    rules: &Rules,
    context: &mut Vec<Con>,
    line: Line,
    before: u64,
) -> Result<u64, CheckErr>
    requires tells { Tells tabled.now.table tabled.now.common }
    requires rules { HasRules rules.now tabled.now.common.program.now.clauses }
    requires context { GoesOnFrom tabled.now.common.cert.now.given context.old.items line }
    requires below { AreBelow (whole tabled.now.common) line.at before }
    ensures context { IfOk result (λ clause. context.new.items ≡ context_of tabled.now.common.cert.now.given (all_opened line.entry.here.opened)) }
    ensures faults { Judges result (line_faults (whole tabled.now.common) (line_of line.entry)) }
    ensures last { IfOk result (λ clause. clause ≡ last_check (line_of line.entry).part before) }
{
    change_to(alloc, tabled.common.cert, context, &line)?;
    accept_line(alloc, tabled, rules, context, &line, before)?;
    Ok(last_check(&line, before))
}

/// Goes over all lines of the certificate: the first thing that is wrong at one of them. What waits behind the lines above
/// is kept in memory, and so is one list of constraints, the context of the line.
///
/// # Errors
///
/// The first fault; want of memory.
pub fn accept_lines(alloc: Global, tabled: &Tabled) -> Result<(), CheckErr>
    requires { Tells tabled.now.table tabled.now.common }
    ensures { Judges result (flat_map (line_faults (whole tabled.now.common)) (whole tabled.now.common).lines) }
{
    let rules = rules_of(alloc, tabled.common.program)?;
    let mut lines = Lines::of(alloc, tabled.common.program, tabled.common.cert)?;
    let mut context = tabled.common.cert.given.copy(alloc)?.into_vec();
    let mut before = 0u64;
    while let Some(line) = lines.next(alloc)? {
        before = accept_next(alloc, tabled, &rules, &mut context, line, before)?;
    }
    Ok(())
}
