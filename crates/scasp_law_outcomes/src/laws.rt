//! What holds of each answer that the written search meets.
ghost use Rattle.scasp_law_outcomes.specs.Problems.{AnswersAreOfProblem, AnswersKeepMap};

/// Each answer that the search meets, first or behind others, has the number of the problem's query and the problem's map,
/// and checks the problem's clauses, each once and in their order.
pub fn answers_are_of_their_problem()
    ensures { AnswersAreOfProblem }
{}

/// Where the problem's checks and map are those of the analysis of its program, the program keeps the map of each answer
/// that the search meets: the clauses that could break it are checked.
pub fn answers_keep_their_map()
    ensures { AnswersKeepMap }
{}
