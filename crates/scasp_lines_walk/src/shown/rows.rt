//! The table of the lines of a certificate. The lines are taken in order; then their rows are made from the last to the
//! first, so that what ended below a line is known where its row is made.
ghost use Rattle.std.specs.Prelude.{◌≡◌, ◌++◌, ◌∷◌, [], map, reverse, IfOk, OnOk};
ghost use Rattle.scasp_cert.specs.Certificate.{certificate_of};
ghost use Rattle.scasp_cert.specs.View.{tree_of};
ghost use Rattle.scasp_lines.specs.Lines.{lines};
ghost use Rattle.scasp_lines_places.specs.Places.View.{place_of};
ghost use Rattle.scasp_lines_walk.specs.Shown.Inside.Ends.{node_row, part_row, row_with, shown_with, with_end};
ghost use Rattle.scasp_lines_walk.specs.Shown.Standings.{standings};
ghost use Rattle.scasp_lines_walk.specs.Shown.TableView.{shown_of, standing_of, table_value};
ghost use Rattle.scasp_lines_walk.specs.Traversal.View.{line_of, part_of};

use crate::shown::ends::{Ended, end_line};
use crate::shown::table::{Literal, Row, Saying, Table};
use crate::traversal::{Line, Lines, Part};
use scasp_cert::{Cert, Node};
use scasp_lines_places::Place;
use scasp_list::Memory;
use scasp_syntax::{Atom, DeepCopy, Program};
use std::alloc::Global;

/// The row of a literal on a line that ends so.
fn literal_row(
    alloc: Global,
    at: u64,
    here: &Place,
    positive: bool,
    atom: &Atom,
    end: Ended,
) -> Result<Literal, Memory>
    ensures { IfOk result (λ made. shown_of made ≡ shown_with at (place_of here.now) positive atom.now end) }
{
    Ok(Literal {
        saying: Saying {
            at,
            positive,
            atom: atom.copy(alloc)?,
            opened: here.opened.share()?,
        },
        behind: end.behind,
        firm: end.firm,
        around: here.around.share()?,
    })
}

/// The row of a node that ends so.
fn node_row(alloc: Global, at: u64, here: &Place, node: &Node, end: Ended) -> Result<Row, Memory>
    ensures { IfOk result (λ made. standing_of made ≡ node_row at (place_of here.now) (tree_of node.now) end) }
{
    match node {
        Node::Pos { atom, .. } => Ok(Row::Literal(literal_row(alloc, at, here, true, atom, end)?)),
        Node::Neg { atom, .. } => Ok(Row::Literal(literal_row(alloc, at, here, false, atom, end)?)),
        Node::Loop { .. } | Node::Seen { .. } | Node::Test { .. } => {
            Ok(Row::Other(here.opened.share()?))
        }
    }
}

/// The row of a line that ends so.
fn row(alloc: Global, line: &Line, end: Ended) -> Result<Row, Memory>
    ensures { IfOk result (λ made. standing_of made ≡ part_row line.now.at (place_of line.now.here) (part_of line.now.part) end) }
{
    match &line.part {
        Part::Node { node, .. } => node_row(alloc, line.at, &line.here, *node, end),
        Part::Rule { .. } | Part::Check { .. } | Part::Case { .. } => {
            Ok(Row::Other(line.here.opened.share()?))
        }
    }
}

/// All lines of the certificate.
fn all_lines<'a>(
    alloc: Global,
    program: &'a Program,
    cert: &'a Cert,
) -> Result<Vec<Line<'a>>, Memory>
    ensures { IfOk result (λ made. map line_of made.items ≡ lines program.now (certificate_of cert.now)) }
{
    let mut lines = Lines::of(alloc, program, cert)?;
    let mut all = Vec::new(alloc);
    while let Some(line) = lines.next(alloc)? {
        all.push(line)?;
    }
    Ok(all)
}

/// Puts the row of the line at the end, and where it ends in the place of what ended right below it.
#[tactic(auto, using(crate::proofs::ShownLemmas::GatherLemmas::end_last))]
fn put_row(
    alloc: Global,
    line: &Line,
    ended: &mut Vec<Ended>,
    rows: &mut Vec<Row>,
) -> Result<(), Memory>
    ensures ended { OnOk result (reverse ended.new.items ≡ with_end (line_of line.now) (reverse ended.old.items)) }
    ensures rows { OnOk result (map standing_of rows.new.items ≡ map standing_of rows.old.items ++ row_with (line_of line.now) (reverse ended.old.items) ∷ []) }
{
    let end = end_line(line, ended)?;
    rows.push(row(alloc, line, end)?)?;
    ended.push(end)?;
    Ok(())
}

/// The same, and lets the line go.
fn take_line(
    alloc: Global,
    line: Line,
    ended: &mut Vec<Ended>,
    rows: &mut Vec<Row>,
) -> Result<(), Memory>
    ensures ended { OnOk result (reverse ended.new.items ≡ with_end (line_of line.entry) (reverse ended.old.items)) }
    ensures rows { OnOk result (map standing_of rows.new.items ≡ map standing_of rows.old.items ++ row_with (line_of line.entry) (reverse ended.old.items) ∷ []) }
{
    put_row(alloc, &line, ended, rows)
}

/// What stands on each line of the certificate: the table is made in two passes, in time that does not depend on how deep
/// lines stand, but for what the places take, and without the machine's stack. Numbers past the range are want of memory.
pub fn table_of(alloc: Global, program: &Program, cert: &Cert) -> Result<Table, Memory>
    ensures { IfOk result (λ made. table_value made ≡ standings (lines program.now (certificate_of cert.now))) }
{
    let mut lines = all_lines(alloc, program, cert)?;
    let mut ended = Vec::new(alloc);
    let mut rows = Vec::new(alloc);
    while let Some(line) = lines.pop() {
        take_line(alloc, line, &mut ended, &mut rows)?;
    }
    rows.reverse();
    Ok(Table { rows })
}
