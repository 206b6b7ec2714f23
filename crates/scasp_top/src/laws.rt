//! What holds of checks.
ghost use Rattle.scasp_top.specs.Agreeing.{ChecksAgree, ChecksMean};

/// The bytes of both files settle what a check prints and how it ends, where they are told, no read fails and memory is not
/// wanting.
pub fn checks_agree()
    ensures { ChecksAgree }
{}

/// A check ends as Done only where each block is accepted, and as Refused only where one is not.
pub fn checks_mean()
    ensures { ChecksMean }
{}
