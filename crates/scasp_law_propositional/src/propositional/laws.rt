//! What holds of the answers to queries of propositional programs.
ghost use Rattle.scasp_law_propositional.specs.Propositional.Examples.{PremisesAreMet};
ghost use Rattle.scasp_law_propositional.specs.Propositional.Finished.{NoneIsPassedOver};
ghost use Rattle.scasp_law_propositional.specs.Propositional.Trees.{PropositionalTreesAreAccepted};

/// Each tree that the search finishes for a query of a propositional program is accepted as it stands: no hint and no clash line is
/// needed.
pub fn propositional_trees_are_accepted()
    ensures { PropositionalTreesAreAccepted }
{}

/// So none is passed over: what such a tree comes to is an answer, and no overflow.
pub fn none_is_passed_over()
    ensures { NoneIsPassedOver }
{}

/// The premises of these laws are met by a program with two stable models and a denial, and by the answer that its search meets.
pub fn premises_are_met()
    ensures { PremisesAreMet }
{}
