//! What holds of each search.
ghost use Rattle.scasp_law_no_circle.specs.Circles.{AllowedIsFirst, NoCircles, RunsGoOn, SearchesFind};

/// No state that comes of the start of a search binds a variable to a term in which it stands. Its bindings are in solved form.
pub fn no_circle_is_reached()
    ensures { NoCircles }
{}

/// From any states that come of its start, with no more calls spent than the budget has, a search comes to a first event within some
/// number of steps.
pub fn each_search_has_an_event()
    ensures { SearchesFind }
{}

/// The states behind that event come of the start too, so that another event comes from them: as long as a run is asked, it goes on.
pub fn each_event_has_a_next_one()
    ensures { RunsGoOn }
{}

/// From such states, an overflow is allowed just where there is a first event, and it is an overflow or tells of a list that overflows.
pub fn allowed_overflows_come_first()
    ensures { AllowedIsFirst }
{}
