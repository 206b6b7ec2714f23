//! What holds of the text of each answer.
ghost use Rattle.scasp_law_printable.specs.Printable.{AnswersArePrintable, AnswersAreSampled, ReadProgramsAreWithin};

/// Each answer of a search, filled with hints and clash lines and accepted, is printable, if its numbers fit.
pub fn answers_are_printable()
    ensures { AnswersArePrintable }
{}

/// And but for its sample with the names of the table alone; the sample has numbers, and names behind those.
pub fn answers_are_sampled()
    ensures { AnswersAreSampled }
{}

/// A program that is read of a text has names of the table alone that reading and translating leave, rows in normal form, and
/// numbers from -M to M.
pub fn read_programs_are_within()
    ensures { ReadProgramsAreWithin }
{}
