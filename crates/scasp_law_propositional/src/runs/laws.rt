//! What holds of the run of a query of such a program.
ghost use Rattle.scasp_law_propositional.specs.Runs.Runs.{EachTreeIsPrinted, SearchesHaveTests};

/// The run of a query of a propositional program passes over no tree: each that its search finishes is printed, until the run ends.
pub fn each_tree_is_printed()
    ensures { EachTreeIsPrinted }
{}

/// The problems that are searched judge lists by `sat`, and their samples have a ground value for each free variable.
pub fn searches_have_tests()
    ensures { SearchesHaveTests }
{}
