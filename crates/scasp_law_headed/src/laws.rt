//! What holds of the certificates of finished states.
ghost use Rattle.scasp_law_headed.specs.Finished.{FinishedAreGood};

/// Each tree stands for its item, each rule under a negated literal is covered in order, a loop leads back to its literal, and a void case's head is missed.
pub fn finished_are_good()
    ensures { FinishedAreGood }
{}
