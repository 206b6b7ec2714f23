//! What holds of the texts and answers of a check.
ghost use Rattle.scasp_command_check.specs.Meaning as spec;

/// A check answers that all blocks are accepted exactly where the certificate of each is.
pub fn accepted_means()
    ensures { spec.AcceptedMeans }
{}

/// The line of a right block is that of no other: of none that joins, and of none that is refused.
pub fn right_means()
    ensures { spec.RightMeans }
{}
