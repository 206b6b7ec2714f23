//! What holds of the states of a search over such a program.
ghost use Rattle.scasp_law_headed_steps.specs.Calm.{AskedAreDecided, ReachedAreCalm, StepsGoOn, TestsAreShown};

/// Each state that comes of the start is calm: no variable is universal, no case is split, and what was told holds.
pub fn reached_are_calm()
    ensures { ReachedAreCalm }
{}

/// If nothing is left to do, each test that was told follows from the bindings and the given constraints.
pub fn tests_are_shown()
    ensures { TestsAreShown }
{}

/// Each state that comes next has more bindings and given constraints, and reads terms on.
pub fn steps_go_on()
    ensures { StepsGoOn }
{}

/// The test tells of each list that is asked whether the list has a valuation.
pub fn asked_are_decided()
    ensures { AskedAreDecided }
{}
