//! Tables with the same first names.
ghost use Rattle.scasp_law_tables.specs.Moved.{GrownTablesRead, ReadAnswersAccepted};
ghost use Rattle.scasp_law_tables.specs.Tables.{TextsAgree};

use scasp_answers::blocks::laws::blocks_are_lines;

/// A line has the same text by each table that has the names of the line at the same places.
pub fn texts_need_their_names()
    ensures { TextsAgree }
{}

/// A file that was written by a table is read by the table that a reader makes: the program's names with those of the file.
pub fn grown_tables_read()
    ensures { GrownTablesRead }
{
    blocks_are_lines();
}

/// What is read of an accepted answer is accepted: the names of its sample are each its own, and others than the program's.
pub fn read_answers_are_accepted()
    ensures { ReadAnswersAccepted }
{
    blocks_are_lines();
}
