//! What a session comes to within a slice.
ghost use Rattle.std.specs.Prelude.{IfOk};
ghost use Rattle.scasp_cert.specs.Certificate.{certificate_of};
ghost use Rattle.scasp_serve_replies.specs.Inside.{TreeComes, StepOf};

use scasp_cert::Cert;
use scasp_fill::{Finished, finish};
use scasp_list::Memory;
use scasp_search::Advance;
use scasp_syntax::Program;
use std::alloc::Global;

/// Why a session gives no answer within a slice.
#[derive(Clone, Copy, Debug, PartialEq, Eq)]
pub enum NoAnswer {
    /// The next call would be one more than the slice has.
    Paused,
    /// There is no further answer.
    Ended,
    /// The next call would pass the budget.
    Spent,
    /// Arithmetic past 128 bits.
    Overflow,
}

/// What a session comes to within a slice.
#[derive(Drop)]
pub enum Coming {
    /// An answer, which is right.
    Answer(Cert),
    Without(NoAnswer),
}

/// What a session comes to at once.
#[derive(Drop)]
pub(crate) enum Step {
    Comes(Coming),
    /// A tree that no hints and clash lines make accepted.
    Passes,
}

/// What the tree of an answer of the search comes to.
fn tree_step(alloc: Global, program: &Program, tree: &Cert) -> Result<Step, Memory>
    ensures { IfOk result (λ step. TreeComes program.now (certificate_of tree.now) step) }
{
    match finish(alloc, program, tree)? {
        Finished::Answer(cert) => Ok(Step::Comes(Coming::Answer(cert))),
        Finished::Passed => Ok(Step::Passes),
        Finished::Overflow => Ok(Step::Comes(Coming::Without(NoAnswer::Overflow))),
    }
}

/// What this comes to, which a search gave within a slice.
pub(crate) fn step_of(alloc: Global, program: &Program, advance: Advance) -> Result<Step, Memory>
    ensures { IfOk result (λ step. StepOf program.now advance step) }
{
    match advance {
        Advance::Answer(tree) => tree_step(alloc, program, &tree),
        Advance::Paused => Ok(Step::Comes(Coming::Without(NoAnswer::Paused))),
        Advance::Ended => Ok(Step::Comes(Coming::Without(NoAnswer::Ended))),
        Advance::Spent => Ok(Step::Comes(Coming::Without(NoAnswer::Spent))),
        Advance::Overflow => Ok(Step::Comes(Coming::Without(NoAnswer::Overflow))),
        Advance::Memory => Err(Memory),
    }
}
