//! What holds of remarks.
ghost use Rattle.scasp_print_remarks.specs.Sameness.{SameRemarks};
ghost use Rattle.scasp_print_remarks.specs.Telling.{AnswersAreTold};

/// Two answers that are the same but for hints and clash lines have the same remarks.
pub fn same_remarks()
    ensures { SameRemarks }
{}

/// What valuations that meet what is given make of the answer's terms is what valuations that meet one of the alternatives
/// told make of the terms told, and nothing else.
pub fn answers_are_told()
    ensures { AnswersAreTold }
{}
