//! What rows in normal form are.
ghost use Rattle.scasp_law_rows.specs.Multiples.{MultiplesAreOne};

/// Two rows in normal form, of which one is a multiple of the other, are the same.
pub fn multiples_are_one()
    ensures { MultiplesAreOne }
{}
