//! What holds of the list of checks.
ghost use Rattle.std.specs.Prelude.{◌↔◌, ℕ, true, false};
ghost use Rattle.scasp_syntax.specs.declared.program.Program.{Program as ThisProgram};
ghost use Rattle.scasp_graph.specs.Analyses.{IsAnalysis};
ghost use Rattle.scasp_graph.specs.OddRules.{IsOddRule};
ghost use Rattle.scasp_graph.specs.declared.analysis.Analysis.{Analysis as ThisAnalysis};
ghost use Rattle.scasp_nmr.specs.Checks.{checks_of, IsDenial, HasCheck};

/// With the analysis of a program, a denial is checked, an odd rule is checked with its head, and nothing else is.
pub fn checks_are_denials_and_odd_rules()
    ensures denials { (p : ThisProgram) (a : ThisAnalysis) → IsAnalysis p a → (k : ℕ) → HasCheck (checks_of p a.odd_rules) k false ↔ IsDenial p k }
    ensures rules { (p : ThisProgram) (a : ThisAnalysis) → IsAnalysis p a → (k : ℕ) → HasCheck (checks_of p a.odd_rules) k true ↔ IsOddRule p k }
{}
