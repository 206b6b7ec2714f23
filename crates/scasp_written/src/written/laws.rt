//! What holds of the search as a machine.
ghost use Rattle.scasp_written.specs.Written.Rests.{IsSearch};

/// The machine of a run is the search for answers to its query.
pub fn machine_is_search()
    ensures { IsSearch }
{}
