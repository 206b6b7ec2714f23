//! What an open line puts into a block when it is closed at the left edge.
ghost use Rattle.std.specs.Prelude.{◌≡◌, true, length, OnOk};
ghost use Rattle.scasp_cert.specs.Certificate.{certificate_of};
ghost use Rattle.scasp_answers.specs.Blocks.Open as spec;
ghost use Rattle.scasp_answers.specs.Parts.View.{open_of, parts_in};
ghost use Rattle.scasp_answers.specs.Opens.Tops.{with_trees, with_checks, IsTop};

use crate::parts::{Open, Part, case_among, nodes_among};
use scasp_answers_lines::Line;
use scasp_cert::{Cert, Check};
use scasp_list::Memory;
use std::alloc::Global;

/// What a line opens at the left edge.
#[derive(Clone, Copy)]
pub enum Top {
    /// The query items.
    Query,
    /// The check of this clause.
    Check(u64),
    /// Nothing.
    Other,
}

/// What the line opens at the left edge.
fn kind(top: &Open) -> Top
    ensures { IsTop result (open_of top.now) }
{
    match &top.line {
        Line::Tree => Top::Query,
        Line::Check(clause) => Top::Check(*clause as u64),
        Line::Header(_)
        | Line::Ending(_, _)
        | Line::Rejected(_, _, _, _)
        | Line::Answer(_, _, _)
        | Line::Given(_)
        | Line::Sample(_)
        | Line::Clash(_)
        | Line::Map(_)
        | Line::End
        | Line::Pos(_, _, _)
        | Line::Neg(_)
        | Line::Loop(_, _)
        | Line::Seen(_, _)
        | Line::Test(_, _)
        | Line::Rule(_)
        | Line::Split(_)
        | Line::Void(_)
        | Line::Leaf(_)
        | Line::Head => Top::Other,
    }
}

/// Puts the query items into the block.
fn with_query(alloc: Global, parts: Vec<Part>, cert: &mut Cert) -> Result<(), Memory>
    ensures { OnOk result (certificate_of cert.new ≡ with_trees (certificate_of cert.old) (parts_in parts.items)) }
{
    cert.trees = nodes_among(alloc, parts)?;
    Ok(())
}

/// Puts the check into the block.
fn with_check(clause: u64, parts: Vec<Part>, cert: &mut Cert) -> Result<(), Memory>
    requires { length parts.items ≡ 1 }
    ensures { OnOk result (certificate_of cert.new ≡ with_checks (certificate_of cert.old) clause (parts_in parts.items)) }
{
    if let Some(case) = case_among(parts) {
        cert.checks.push(Check { clause, case })?;
    }
    Ok(())
}

/// Puts the query items or the check into the block.
pub fn with_top(alloc: Global, top: Open, cert: &mut Cert) -> Result<(), Memory>
    requires { spec.is_whole (open_of top) ≡ true }
    ensures { OnOk result (certificate_of cert.new ≡ spec.with_top (open_of top) (certificate_of cert.old)) }
{
    match kind(&top) {
        Top::Query => with_query(alloc, top.into_parts(), cert),
        Top::Check(clause) => with_check(clause, top.into_parts(), cert),
        Top::Other => {
            drop(top);
            Ok(())
        }
    }
}
