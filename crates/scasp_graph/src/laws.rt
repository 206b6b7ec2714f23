//! What holds of maps.
ghost use Rattle.std.specs.Prelude.{◌≡◌, ◌↔◌, ℕ, List, Bool, IsTrue, [], not};
ghost use Rattle.std.specs.List.{list_all};
ghost use Rattle.scasp_syntax.specs.declared.program.Program.{Program as ThisProgram};
ghost use Rattle.scasp_syntax.specs.Same.{same_bool};
ghost use Rattle.scasp_syntax.specs.declared.atom.Pred.{Pred as ThisPred};
ghost use Rattle.scasp_syntax.specs.declared.predicate_map.PredMap.{PredMap as ThisPredMap};
ghost use Rattle.scasp_graph.specs.Analyses.{IsAnalysis, checked};
ghost use Rattle.scasp_graph.specs.Kept.{KeepsMap};
ghost use Rattle.scasp_graph.specs.Map.{MapHolds, is_positive_rule};
ghost use Rattle.scasp_graph.specs.Walks.{Walk, Depends};
ghost use Rattle.scasp_graph.specs.declared.analysis.Analysis.{Analysis as ThisAnalysis};

/// A map holds exactly where each denial is covered and, in each rule that is not covered, no predicate of the body has a higher
/// level than that of the head, and one of the same level has the same sign where its literal is positive, and the other sign
/// where it is negated.
pub fn map_holds_by_literals()
    ensures { (p : ThisProgram) (covered : List ℕ) (map : List ThisPredMap) → MapHolds p covered map ↔ KeepsMap p covered map }
{}

/// Where nothing is covered, the empty map holds exactly where each clause is a rule without negated literals.
pub fn empty_map_holds_for_positive_rules()
    ensures { (p : ThisProgram) → MapHolds p [] [] ↔ IsTrue (list_all is_positive_rule p.clauses) }
{}

/// The map of a program's analysis holds where its denials and its odd rules are covered.
pub fn analysed_map_holds()
    ensures { (p : ThisProgram) (a : ThisAnalysis) → IsAnalysis p a → MapHolds p (checked p a.odd_rules) a.map }
{}

/// One walk after another is a walk, which is odd where one of the two is and the other is not.
pub fn walks_join()
    ensures { (p : ThisProgram) (q r s : ThisPred) (b c : Bool) → Walk (Depends p) q r b → Walk (Depends p) r s c → Walk (Depends p) q s (not (same_bool b c)) }
{}

/// A program has one analysis: what is said of it leaves no choice.
pub fn analyses_agree()
    ensures rules { (p : ThisProgram) (a b : ThisAnalysis) → IsAnalysis p a → IsAnalysis p b → a.odd_rules ≡ b.odd_rules }
    ensures maps { (p : ThisProgram) (a b : ThisAnalysis) → IsAnalysis p a → IsAnalysis p b → a.map ≡ b.map }
{}
