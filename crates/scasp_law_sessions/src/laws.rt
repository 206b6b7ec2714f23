//! What holds of the sessions of a program.
ghost use Rattle.scasp_law_sessions.specs.Searches.{GoesOnInQuery, SessionsAreSearches};

/// Behind any replies to commands each open session has a search for one of the program's queries, within the budget with which
/// the session was opened.
pub fn sessions_are_searches()
    ensures { SessionsAreSearches }
{}

/// What comes of a slice of a session comes of a search for one of the program's queries, and the session goes on with the same
/// search.
pub fn sessions_go_on_in_their_query()
    ensures { GoesOnInQuery }
{}
