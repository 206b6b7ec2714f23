//! What holds of the states of the written search.
ghost use Rattle.scasp_cert.specs.Certificate.{Certificate};
ghost use Rattle.scasp_search_rules.specs.declared.states.state.State.{State as ThisState};
ghost use Rattle.scasp_search_rules.specs.Successors.Falls.{ClosingKeepsWork, FreeStepFalls, LighterIsLess, MoreIsLess};
ghost use Rattle.scasp_search_rules.specs.Successors.Machine.{HasOneEvent, KeepsBudget};

/// At each step that costs nothing, more variables or bindings are made, or no fewer are made and what is left to do
/// weighs less. That no search makes more without end is not said.
pub fn free_steps_fall()
    ensures falls { FreeStepFalls }
    ensures closing { ClosingKeepsWork }
{}

/// The two parts of the measure packed into one number: it falls where more is made, and where what is left weighs less.
pub fn measure_is_packed()
    ensures more { MoreIsLess }
    ensures lighter { LighterIsLess }
{}

/// From given states with given calls spent a search meets one event first, and no other.
pub fn one_event_is_first()
    ensures { HasOneEvent ThisState Certificate }
{}

/// No more calls are spent than the budget has, and all of it where it is said to be spent.
pub fn budget_is_kept()
    ensures { KeepsBudget ThisState Certificate }
{}
