//! Pending work.
ghost use Rattle.std.specs.Prelude.{◌≡◌, ◌-◌, [], ◌∷◌, ◌++◌, List, drop, length, IfOk, OnErr, OnOk};
ghost use Rattle.scasp_search_parts.specs.Taken.{Takes};
ghost use Rattle.scasp_search_parts.specs.Times.{after, times, times_at};
ghost use Rattle.scasp_search_parts.specs.declared.frame.Frame.{Frame as ThisFrame};

use crate::frame::Frame;
use crate::timed::Timed;
use scasp_list::Memory;
use scasp_syntax::DeepCopy;
use std::alloc::Global;
use std::marker::Model;

/// A time to go back to, of the frames that gave it: how many changes there were. To other frames it is the time of as many
/// changes of their own; if there were not so many, it is now.
#[derive(Clone, Copy, Debug, PartialEq, Eq)]
pub struct FrameMark {
    changes: u64,
}

impl Model for FrameMark {
    ghost use Rattle.std.specs.Prelude.{ℕ};

    ghost Value = { ℕ };

    ghost view = { λ m. m.changes };

    ghost inverse = { λ n. record { changes = n } };
}

/// Pending work in frames, in the order in which they were put.
#[derive(Drop)]
pub struct Frames {
    frames: Timed<Frame>,
    alloc: Global,
}

impl Model for Frames {
    ghost use Rattle.std.specs.Coded.{codes};
    ghost use Rattle.scasp_search_parts.specs.declared.frame.Frame.{Frame as ThisFrame};
    ghost use Rattle.scasp_syntax.specs.TmCode.{coded_tms};
    ghost use Rattle.scasp_trail.specs.Past.{Past};

    ghost Value = { Past ThisFrame };

    ghost coded = { Prim.hlevel (codes, coded_tms) };

    ghost view = { λ f. f.frames };
}

impl Frames {
    /// Nothing is pending; no memory is taken.
    pub fn new(alloc: Global) -> Frames
        ensures { result ≡ record { now = []; before = [] } }
    {
        Frames {
            frames: Timed::new(alloc),
            alloc,
        }
    }

    /// Puts the frame behind the others: it is the next to be taken.
    pub fn put(&mut self, frame: Frame) -> Result<(), Memory>
        ensures changed { OnOk result (self.new ≡ after self.old (self.old.now ++ frame ∷ [])) }
        ensures unchanged { OnErr result (self.new ≡ self.old) }
    {
        self.frames.push(frame)
    }

    /// Takes the frame away that was put last. None exactly if nothing is pending.
    #[tactic(auto, using(crate::proofs::TakenLemmas::none_taken, crate::proofs::TakenLemmas::last_taken))]
    pub fn take(&mut self) -> Result<Option<Frame>, Memory>
        ensures taken { IfOk result (λ frame. Takes frame self.old self.new) }
        ensures unchanged { OnErr result (self.new ≡ self.old) }
    {
        let Some((last, _before)) = self.frames.as_slice().split_last() else {
            return Ok(None);
        };
        let frame = last.copy(self.alloc)?;
        self.frames.pop()?;
        Ok(Some(frame))
    }

    /// The present time. Whatever is changed after it, `undo` gives back just what there is now. No memory is taken.
    #[tactic(auto, using(crate::proofs::TimeLemmas::given_back))]
    pub fn mark(&self) -> FrameMark
        ensures time { result ≡ length self.now.before }
        ensures given_back { (later : List (List ThisFrame)) → drop (length (later ++ self.now.before) - result) (later ++ times self.now) ≡ times self.now }
    {
        FrameMark {
            changes: self.frames.changes(),
        }
    }

    /// Undoes all changes since the mark. No memory is taken, and the mark can be undone to again.
    pub fn undo(&mut self, mark: FrameMark)
        ensures { times self.new ≡ times_at mark self.old }
    {
        self.frames.undo(mark.changes);
    }
}
