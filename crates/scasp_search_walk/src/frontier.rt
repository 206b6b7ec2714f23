//! The states that a search has still to go through, as an object.
ghost use Rattle.std.specs.Prelude.{◌≡◌, List};
ghost use Rattle.scasp_search_rules.specs.Successors.Machine.{Machine};
ghost use Rattle.scasp_search_walk.specs.Slices.{Sees, Steps};

use scasp_search_constraints::SearchErr;

/// What the first of the states is.
#[derive(Drop)]
pub enum Look<A> {
    /// An answer, which was taken away.
    Answer(A),
    /// A state with nothing left to do that is no answer; it was taken away.
    Nothing,
    /// It costs a call.
    Pays,
    /// It costs nothing.
    Free,
    /// There is none.
    Ended,
}

/// The states that a search has still to go through. The search is that of a machine, by what it is about, which stays the same;
/// an answer of the code has a value, which is what the machine answers.
pub trait Frontier<A> {
    ghost State: { Type 0 };

    ghost Value: { Type 0 };

    ghost value_of: { A → Value };

    ghost Problem: { Type 0 };

    ghost problem: { Self → Problem };

    ghost machine: { Problem → Machine State Value };

    ghost states: { Self → List State };

    /// What the first of the states is.
    ///
    /// # Errors
    ///
    /// Overflow where the state is an answer whose arithmetic overflows, or where it costs nothing and asks a list that
    /// overflows; want of memory.
    fn look(&mut self) -> Result<Look<A>, SearchErr>
        ensures sees { Sees value_of (machine (problem self.old)) (states self.old) (states self.new) result }
        ensures same { problem self.new ≡ problem self.old };

    /// Puts what comes after the first state in its place.
    ///
    /// # Errors
    ///
    /// Overflow where the state asks a list that overflows; want of memory.
    fn step(&mut self) -> Result<(), SearchErr>
        ensures steps { Steps (machine (problem self.old)) (states self.old) (states self.new) result }
        ensures same { problem self.new ≡ problem self.old };
}
