//! What holds of walks.
ghost use Rattle.scasp_cert.specs.Certificate.{Certificate, certificate_of};
ghost use Rattle.scasp_cert.specs.declared.certificate.Cert.{Cert as ThisCert};
ghost use Rattle.scasp_search_rules.specs.declared.states.state.State.{State as ThisState};
ghost use Rattle.scasp_search_walk.specs.Repeats.{LastComesAgain};
ghost use Rattle.scasp_search_walk.specs.Thin.{MeetSame, MeetSameBack};

/// A search without silent states meets the same events.
pub fn silent_states_are_left_out()
    ensures { MeetSame ThisState Certificate }
{}

/// What a search without silent states meets is met by the search with them.
pub fn no_other_events_come()
    ensures { MeetSameBack ThisState Certificate }
{}

/// Behind the end of a search, and behind the end of its budget, a slice of any size has nothing but that, or want of memory.
pub fn last_events_come_again()
    ensures { LastComesAgain ThisState ThisCert Certificate certificate_of }
{}
