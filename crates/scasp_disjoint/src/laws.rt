//! What holds of lines that are shown apart.
ghost use Rattle.std.specs.Prelude.{◌≡◌, ◌≢◌, ℕ, List, None, Some};
ghost use Rattle.scasp_checker_rules.specs.Normality.{AreRowsNormal};
ghost use Rattle.scasp_checker_rules.specs.Told.{Told};
ghost use Rattle.scasp_cert.specs.Certificate.{Certificate};
ghost use Rattle.scasp_disjoint.specs.ByLines.{list_of_pair, pair_on};
ghost use Rattle.scasp_hint.specs.Showing.{fault_of};
ghost use Rattle.scasp_lines.specs.Lines.{free_of};
ghost use Rattle.scasp_lines.specs.Opened.{IsInstance};
ghost use Rattle.scasp_syntax.specs.Constraints.{Meets};
ghost use Rattle.scasp_syntax.specs.Tm.{Tm};
ghost use Rattle.scasp_syntax.specs.Values.{Sub, Valuation, all_under};
ghost use Rattle.scasp_syntax.specs.declared.hint.Hint.{Hint as ThisHint};
ghost use Rattle.scasp_syntax.specs.declared.program.Program.{Program as ThisProgram};

/// Two lines that a hint shows apart have no atom in common, each at an instance of its own line, whatever the free
/// variables stand for, if they meet what is given, and over any domain.
pub fn lines_shown_apart_have_no_atom_in_common()
    ensures { (p : ThisProgram) (c : Certificate) (i j : ℕ) (a b : Told) (h : ThisHint) → AreRowsNormal p c → pair_on p c i j ≡ Some (a, b) → fault_of (list_of_pair c (a, b)) h ≡ None → (d : List Tm) (free : Sub) (v w : Valuation) → IsInstance (free_of c) d free a.opened v.of → IsInstance (free_of c) d free b.opened w.of → Meets v.of c.given → all_under v.of a.atom.args ≢ all_under w.of b.atom.args }
{}
