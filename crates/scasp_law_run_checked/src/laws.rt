//! Runs, and checks of what they printed.
ghost use Rattle.scasp_law_run_checked.specs.RunChecked.{RunsAreFoundRight};

use scasp_answers::blocks::laws::blocks_are_lines;
use scasp_law_checked::laws::{searched_answers_are_right, searches_are_named};
use scasp_law_printable::laws::{answers_are_printable, answers_are_sampled};
use scasp_law_tables::laws::grown_tables_read;

/// What a run of a program that is read has printed is read, and each of its blocks is found right: a line for each answer,
/// in order.
pub fn runs_are_found_right()
    ensures { RunsAreFoundRight }
{
    blocks_are_lines();
    searches_are_named();
    answers_are_printable();
    answers_are_sampled();
    searched_answers_are_right();
    grown_tables_read();
}
