//! The parts of a state, of which each can be undone.
ghost use Rattle.std.specs.Prelude.{◌≡◌, ◌+◌, true, IfOk, OnOk};
ghost use Rattle.scasp_search_rules.specs.Successors.Search.{nothing};
ghost use Rattle.scasp_search_trail.specs.Inside.Changes.{AllMarked, with_mark};
ghost use Rattle.scasp_search_trail.specs.States.{last_marked, lists_of, marked_before, marks_of, state_of};

use scasp_forall::Scopes;
use scasp_frames::Frames;
use scasp_list::Memory;
use scasp_loops::Loops;
use scasp_search_rules::Line;
use scasp_store::Store;
use scasp_told::Told;
use scasp_variables::Variables;
use std::alloc::Global;

/// A state in parts.
#[derive(Drop)]
pub(crate) struct Parts {
    pub(crate) variables: Variables,
    /// The bindings and the given constraints.
    pub(crate) store: Store,
    /// The open covers, without their lines.
    pub(crate) scopes: Scopes,
    /// A piece for the lines before the case of each cover, and the lines of the innermost case.
    pub(crate) told: Told<Line>,
    pub(crate) loops: Loops,
    pub(crate) frames: Frames,
    /// How many cases have begun.
    pub(crate) cases: u64,
}

impl Parts {
    /// A state with nothing in it, without a mark.
    pub(crate) fn new(alloc: Global) -> Parts
        ensures { state_of result ≡ nothing }
    {
        Parts {
            variables: Variables::new(alloc),
            store: Store::new(alloc),
            scopes: Scopes::new(alloc),
            told: Told::new(alloc),
            loops: Loops::new(alloc),
            frames: Frames::new(alloc),
            cases: 0,
        }
    }

    /// Marks each part.
    pub(crate) fn mark(&mut self, alloc: Global) -> Result<(), Memory>
        ensures now { OnOk result (state_of self.new ≡ state_of self.old) }
        ensures marks { OnOk result (marks_of self.new ≡ with_mark (lists_of self.old) (marks_of self.old)) }
    {
        self.variables.mark()?;
        self.store.mark(alloc)?;
        self.scopes.mark()?;
        self.told.mark()?;
        self.loops.mark()?;
        self.frames.mark()
    }

    /// Want of memory where a part has no mark.
    fn all_marked(&self) -> Result<(), Memory>
        ensures { OnOk result (AllMarked (marks_of self.now)) }
    {
        require(self.variables.is_marked())?;
        require(self.store.is_marked())?;
        require(self.scopes.is_marked())?;
        require(self.told.is_marked())?;
        require(self.loops.is_marked())?;
        require(self.frames.is_marked())
    }

    /// Makes each part again what it was at its latest mark, which is taken away. A part without a mark, which never is, is told as
    /// want of memory.
    #[tactic(auto, using(crate::proofs::MarkLemmas::marked_latest))]
    pub(crate) fn leave(&mut self) -> Result<(), Memory>
        ensures lists { OnOk result (lists_of self.new ≡ last_marked (marks_of self.old)) }
        ensures marks { OnOk result (marks_of self.new ≡ marked_before (marks_of self.old)) }
    {
        self.all_marked()?;
        self.variables.leave();
        self.store.leave();
        self.scopes.leave();
        self.told.leave();
        self.loops.leave();
        self.frames.leave();
        Ok(())
    }
}

/// The number after this one.
pub(crate) fn next(number: u64) -> Result<u64, Memory>
    ensures { IfOk result (λ after. after ≡ number + 1) }
{
    number.checked_add(1).ok_or(Memory)
}

/// Want of memory where it does not hold.
pub(crate) fn require(holds: bool) -> Result<(), Memory>
    ensures { OnOk result (holds ≡ true) }
{
    if holds { Ok(()) } else { Err(Memory) }
}
