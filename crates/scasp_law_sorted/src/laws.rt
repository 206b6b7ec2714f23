//! What holds of the lists that searches ask.
ghost use Rattle.scasp_law_sorted.specs.Examples.{LooseIsAsked};
ghost use Rattle.scasp_law_sorted.specs.Asking.{AllAskSorted, AllTestsDecide, AskedAreSorted, ContextsAreSorted, GivenAreSorted, GivenLinesAreSorted, LooseIsUnsorted, PositivesComePlainly, RowlessAskSorted, RowlessGiveSorted, TestsDecide};

/// In each state that comes of the start by states without universal variables, the bindings with the given constraints are sorted.
pub fn given_are_sorted()
    ensures { GivenAreSorted }
{}

/// If such a state itself has no universal variable, each list that the next step asks is sorted.
pub fn asked_are_sorted()
    ensures { AskedAreSorted }
{}

/// So the test tells of each such list whether the list has a valuation.
pub fn tests_decide()
    ensures { TestsDecide }
{}

/// If neither the query nor a clause has a negated literal, and no clause is checked, each state that comes of the start is such a state.
pub fn positives_come_plainly()
    ensures { PositivesComePlainly }
{}

/// If neither the query nor a clause has a linear item, each list that a step asks from a state that comes of the start is sorted.
pub fn rowless_ask_sorted()
    ensures { RowlessAskSorted }
{}

/// And so are the given constraints of each certificate, which have no equation.
pub fn rowless_give_sorted()
    ensures { RowlessGiveSorted }
{}

/// If no row was shown before that cannot be replaced, the bindings with the given constraints are sorted, and with the whole context.
pub fn contexts_are_sorted()
    ensures { ContextsAreSorted }
{}

/// And each list that the next step asks is sorted.
pub fn all_ask_sorted()
    ensures { AllAskSorted }
{}

/// So the test tells of each such list whether the list has a valuation.
pub fn all_tests_decide()
    ensures { AllTestsDecide }
{}

/// A list that passes the test, though some variable of a row does not count as a number, is not sorted.
pub fn loose_lists_are_unsorted()
    ensures { LooseIsUnsorted }
{}

/// A search asks such a list, and no state before is an overflow.
pub fn a_loose_list_is_asked()
    ensures { LooseIsAsked }
{}

/// If no row was shown before that cannot be replaced, the given constraints as they read are sorted, if each row of theirs can be replaced.
pub fn given_lines_are_sorted()
    ensures { GivenLinesAreSorted }
{}
