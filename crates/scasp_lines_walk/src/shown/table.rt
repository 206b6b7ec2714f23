//! A table of the lines of a certificate.
ghost use Rattle.std.specs.Prelude.{◌≡◌, ◌++◌, IfOk, OnOk, map, option_copied, option_map, slice_get};
ghost use Rattle.std.specs.List.{flat_map};
ghost use Rattle.scasp_lines_places.specs.Places.View.{all_opened};
ghost use Rattle.scasp_lines_walk.specs.Shown.Standings.{opened_at, told_by, told_where};
ghost use Rattle.scasp_lines_walk.specs.Shown.TableView.{standing_of, table_value, told_from, told_of};
ghost use Rattle.scasp_syntax.specs.Programs.{numbered};

use scasp_lines_places::{Chain, Enclosing, Entry};
use scasp_list::Memory;
use scasp_syntax::Atom;
use std::alloc::Global;

/// A positive or a negated literal on a line, with what opened above it.
#[derive(Drop)]
pub struct Saying {
    pub at: u64,
    pub positive: bool,
    pub atom: Atom,
    pub opened: Chain<Entry>,
}

/// Such a literal with what later lines ask of it: the number of the line behind the last one below it, whether it rests
/// on no positive loop through positive children alone, and the cases around it.
#[derive(Drop)]
pub struct Literal {
    pub saying: Saying,
    pub behind: u64,
    pub firm: bool,
    pub around: Chain<Enclosing>,
}

/// What stands on a line.
#[derive(Drop)]
pub enum Row {
    /// A positive or a negated literal.
    Literal(Literal),
    /// Anything else, with what opened on the way to it.
    Other(Chain<Entry>),
}

impl Row {
    /// What opened on the way to the line.
    pub fn opened(&self) -> &Chain<Entry>
        ensures { all_opened result.now ≡ opened_at (standing_of self.now) }
    {
        match self {
            Row::Literal(literal) => &literal.saying.opened,
            Row::Other(opened) => opened,
        }
    }
}

/// What stands on each line of a certificate.
#[derive(Drop)]
pub struct Table {
    pub(crate) rows: Vec<Row>,
}

impl Table {
    /// What stands on the line of this number, counted from 1.
    pub fn line(&self, number: u64) -> Option<&Row>
        ensures { option_map standing_of (option_copied result) ≡ numbered (table_value self.now) number }
    {
        if number == 0 {
            return None;
        }
        row_at(self.rows.as_slice(), (number - 1) as usize)
    }

    /// The literal on the line of this number, if it is one.
    pub fn saying(&self, number: u64) -> Option<&Saying>
        ensures { option_map told_of (option_copied result) ≡ told_where (numbered (table_value self.now) number) }
    {
        match self.line(number) {
            Some(Row::Literal(literal)) => Some(&literal.saying),
            Some(Row::Other(_)) | None => None,
        }
    }

    /// The literals on the lines, in order.
    pub fn sayings(&self, alloc: Global) -> Result<Vec<&Saying>, Memory>
        ensures { IfOk result (λ made. map told_from made.items ≡ flat_map told_by (table_value self.now)) }
    {
        let mut all = Vec::new(alloc);
        for row in &self.rows {
            push_saying(row, &mut all)?;
        }
        Ok(all)
    }
}

/// The row at the place, counted from 0.
fn row_at(rows: &[Row], place: usize) -> Option<&Row>
    ensures { option_copied result ≡ slice_get rows.now place }
{
    rows.get(place)
}

/// Puts the literal of the row at the end, if it is one.
fn push_saying<'a>(row: &'a Row, all: &mut Vec<&'a Saying>) -> Result<(), Memory>
    ensures { OnOk result (map told_from all.new.items ≡ map told_from all.old.items ++ told_by (standing_of row.now)) }
{
    match row {
        Row::Literal(literal) => {
            all.push(&literal.saying)?;
            Ok(())
        }
        Row::Other(_) => Ok(()),
    }
}
