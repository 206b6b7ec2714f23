//! Files that are printed, read back and checked.
ghost use Rattle.scasp_law_checked.specs.Checked.{PrintedAnswersAreRight, SearchedAnswersAreRight, SearchesAreNamed};

use scasp_law_printable::laws::{answers_are_sampled, read_programs_are_within};
use scasp_law_tables::laws::{grown_tables_read, read_answers_are_accepted};

/// If each answer of a file is right for a program, the file is read, and each block that is read is worth as much.
pub fn printed_answers_are_right()
    ensures { PrintedAnswersAreRight }
{
    grown_tables_read();
    read_answers_are_accepted();
}

/// So it is with a file of answers of searches that are filled and right, if their numbers fit.
pub fn searched_answers_are_right()
    ensures { SearchedAnswersAreRight }
{
    printed_answers_are_right();
    answers_are_sampled();
}

/// The searches of a program that is read are what the laws on printable answers ask.
pub fn searches_are_named()
    ensures { SearchesAreNamed }
{
    read_programs_are_within();
}
