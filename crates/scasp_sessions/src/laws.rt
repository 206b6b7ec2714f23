//! What holds of sessions.
ghost use Rattle.scasp_sessions.specs.Laws.{AreFew, Count, FollowFromCalls, GiveEvents, StandAlone};

/// What comes of the slices that are asked of one session among any calls is what may come of its search alone.
pub fn sessions_stand_alone()
    ensures { StandAlone }
{}

/// What comes of slices of a search are the events of its run and pauses.
pub fn slices_give_events()
    ensures { GiveEvents }
{}

/// The numbers and the refusals follow from the calls, and from which of them want of memory refuses.
pub fn numbers_follow_from_calls()
    ensures { FollowFromCalls }
{}

/// At most 64 sessions are open, so `Full` comes exactly where 64 are.
pub fn at_most_64_are_open()
    ensures { AreFew }
{}

/// The numbers of sessions are 1, 2, 3 and so on, in the order of opening.
pub fn numbers_count()
    ensures { Count }
{}
