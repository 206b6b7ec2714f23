//! The lines that are written.
ghost use Rattle.std.specs.Prelude.{◌≡◌, ◌++◌, IfOk, OnOk};
ghost use Rattle.std.specs.List.{list_all};
ghost use Rattle.scasp_command_check.specs.Texts.{is_accepted};
ghost use Rattle.scasp_command_recheck.specs.Texts as spec;
ghost use Rattle.scasp_command_recheck.specs.Worths.{worth_in};

use scasp_checker::Verdict;
use scasp_command_check::Worth;
use scasp_list::Memory;
use scasp_print_words::{put, put_number};
use scasp_recheck::Checked;

/// What it is worth to come to this by a check.
pub(crate) fn worth_in(checked: Checked) -> Worth
    ensures { result ≡ worth_in checked }
{
    match checked {
        Checked::Accepted(Verdict::Right) => Worth::Right,
        Checked::Accepted(Verdict::Joins(fault)) => Worth::Joins(fault),
        Checked::Refused(refusal) => Worth::Refused(refusal),
    }
}

/// Whether all are accepted.
pub(crate) fn are_accepted(results: &[Checked]) -> bool
    ensures { result ≡ list_all (λ checked. is_accepted (worth_in checked)) results.now }
{
    results
        .iter()
        .all(|checked| matches!(checked, Checked::Accepted(_)))
}

/// Puts the number of a program at the end, with what stands around it.
#[tactic(auto, unfolding(crate::specs::Texts::program_line))]
pub(crate) fn put_program(text: &mut Vec<u8>, number: u64) -> Result<(), Memory>
    ensures { OnOk result (text.new.items ≡ text.old.items ++ spec.program_line number) }
{
    put(text, "program ")?;
    put_number(text, number)?;
    put(text, "\n")
}

/// Puts how many blocks were visited at the end, with what stands around it.
#[tactic(auto, unfolding(crate::specs::Texts::visited_line))]
pub(crate) fn put_visited(text: &mut Vec<u8>, visited: u64) -> Result<(), Memory>
    ensures { OnOk result (text.new.items ≡ text.old.items ++ spec.visited_line visited) }
{
    put(text, "visited ")?;
    put_number(text, visited)?;
    put(text, "\n")
}
