//! What holds of programs with abducible predicates.
ghost use Rattle.std.specs.Prelude.{◌≡◌};
ghost use Rattle.scasp_law_abduction.specs.Choices.{Less, More};

/// For each finite domain the stable models of the translation are those of the program with any choice atoms as facts, but
/// for the atoms of the new names, which are true exactly where the choice atoms are not.
pub fn assumptions_are_choices()
    ensures less { Less }
    ensures more { More }
{}
