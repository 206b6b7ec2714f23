//! What holds of what is read.
ghost use Rattle.scasp_domain_text.specs.Meaning as spec;

/// The members of a domain that is read are the terms of the file's lines, in order, and each line has its end.
pub fn lines_are_members()
    ensures { spec.LinesAreMembers }
{}
