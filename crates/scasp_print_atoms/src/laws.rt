//! What holds of lists of atoms that are written.
ghost use Rattle.scasp_print_atoms.specs.Meaning as spec;

/// Texts in byte order are these texts, each as often, and none stands before one that comes before it.
pub fn order_means()
    ensures { spec.OrderMeans }
{}

/// Without repeats a list has the same atoms, and none twice.
pub fn repeats_mean()
    ensures { spec.RepeatsMean }
{}
