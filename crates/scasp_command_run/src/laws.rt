//! What holds of runs.
ghost use Rattle.scasp_command_run.specs.Agreeing.{RunsAgree};

/// Two runs of one query that were neither cut off nor ended by an overflow print the same answers in the same order, but
/// for hints and clash lines, and end alike. So none is left out, added, or put in another place.
pub fn runs_agree()
    ensures { RunsAgree }
{}
