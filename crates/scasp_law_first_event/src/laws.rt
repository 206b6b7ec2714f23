//! What holds of each search.
ghost use Rattle.scasp_cert.specs.Certificate.{Certificate};
ghost use Rattle.scasp_law_first_event.specs.Events.{AllowedIsTold, AllowedIsToldOrReplaces, AllowedIsToldOrUnsolved, CirclesAreReplaced, FindsOrGrows, FindsOrReplaces, FindsOrUnsolved, PositiveFinds, ToldIsAllowed};
ghost use Rattle.scasp_search_rules.specs.declared.states.state.State.{State as ThisState};

/// From any states, with no more calls spent than the budget has, a search comes to a first event within some number of steps; or,
/// whatever number is given, to a state of more variables and bindings than that.
pub fn a_first_event_comes()
    ensures { FindsOrGrows }
{}

/// From any states, with no more calls spent than the budget has, a search comes to a first event within some number of steps; or
/// to a state whose bindings are not in solved form.
pub fn solved_searches_have_events()
    ensures { FindsOrUnsolved }
{}

/// From states that come of its start, with no more calls spent than the budget has, a search comes to a first event within some
/// number of steps; or it comes to the end of a case where the other side of a split replaces a variable by a term in which it stands.
pub fn searches_have_events()
    ensures { FindsOrReplaces }
{}

/// Where a variable is bound to a term in which it stands, the other side of a split replaced one so as a case ended. No other step
/// makes such a circle: not a call, not an equation, and not a head that is matched.
pub fn circles_are_replacements()
    ensures { CirclesAreReplaced }
{}

/// Where neither the query nor a clause has a negated literal, and no clause is checked, a search comes to a first event within some
/// number of steps: from states that come of its start, with no more calls spent than the budget has.
pub fn positive_searches_have_events()
    ensures { PositiveFinds }
{}

/// Where a walk allows an overflow its first event is an overflow or tells of a list that overflows, or the search comes to a
/// state of more variables and bindings than any number that is given; or, likewise, to one whose bindings are not in solved form;
/// or, from states that come of the start, to such a replacement. And only there is it allowed, where there is an event.
pub fn allowed_overflows_are_told()
    ensures told { AllowedIsTold }
    ensures solved { AllowedIsToldOrUnsolved }
    ensures reached { AllowedIsToldOrReplaces }
    ensures allowed { ToldIsAllowed ThisState Certificate }
{}
