//! What holds of accepted certificates.
ghost use Rattle.std.specs.Prelude.{◌≡◌, ◌≢◌, ◌↔◌, ◌<◌, ◌∷◌, ℕ, Bool, false, IsTrue, [], None, Some, List};
ghost use Rattle.std.specs.List.{Contains};
ghost use Rattle.scasp_hint.specs.AskedRows.{RowsNormal};
ghost use Rattle.scasp_hint.specs.Showing.{fault_of};
ghost use Rattle.scasp_syntax.specs.Constraints.{Meets, holds};
ghost use Rattle.scasp_syntax.specs.Values.{Sub, Valuation, all_under, under};
ghost use Rattle.scasp_syntax.specs.declared.con.Con.{Con as ThisCon};
ghost use Rattle.scasp_syntax.specs.declared.hint.Hint.{Hint as ThisHint};
ghost use Rattle.scasp_syntax.specs.declared.program.Program.{Program as ThisProgram};
ghost use Rattle.scasp_cert.specs.Certificate.{Certificate};
ghost use Rattle.scasp_lines.specs.Contexts.{context};
ghost use Rattle.scasp_lines.specs.Determined.{determined};
ghost use Rattle.scasp_lines.specs.Lines.{lines};
ghost use Rattle.scasp_lines.specs.Walk.{Line};
ghost use Rattle.scasp_lines.specs.Scopes.{are_lines_scoped};
ghost use Rattle.scasp_checker_rules.specs.Accepted.{Accepts, AcceptsWhere};
ghost use Rattle.scasp_checker_rules.specs.Faults.{faults_where};
ghost use Rattle.scasp_checker_rules.specs.Normality.{AreRowsNormal};
ghost use Rattle.scasp_checker_rules.specs.PairLists.{pair_list};
ghost use Rattle.scasp_checker_rules.specs.Told.{Told};

/// A certificate is accepted exactly where nothing is wrong with it, whether positive literals may be seen or not.
pub fn accepted_where_no_fault_is()
    ensures { (positives : Bool) (p : ThisProgram) (c : Certificate) → AcceptsWhere positives p c ↔ (faults_where positives p c ≡ []) }
{}

/// What is accepted where no positive literal may be seen is accepted where it may.
pub fn negatives_alone_are_accepted()
    ensures { (p : ThisProgram) (c : Certificate) → AcceptsWhere false p c → Accepts p c }
{}

/// On each line of an accepted certificate the variables that stand there are known.
pub fn accepted_lines_are_scoped()
    ensures { (positives : Bool) (p : ThisProgram) (c : Certificate) → AcceptsWhere positives p c → IsTrue (are_lines_scoped p c) }
{}

/// The rows of each line's context are in normal form, where those of the certificate are.
pub fn contexts_are_normal()
    ensures { (p : ThisProgram) (c : Certificate) → AreRowsNormal p c → (l : Line) → Contains (lines p c) l → RowsNormal (context c.given l.here.opened) }
{}

/// Two literals that a hint shows apart have no atom in common, whatever values their universal variables have, each
/// at an instance of its own line.
pub fn apart()
    ensures { (free : ℕ) (given : List ThisCon) (a b : Told) (h : ThisHint) → RowsNormal (context given a.opened) → RowsNormal (context [] b.opened) → fault_of (pair_list free given a b) h ≡ None → (v w : Valuation) → ((x : ℕ) → x < free → v.of x ≡ w.of x) → Meets v.of (context given a.opened) → Meets w.of (context [] b.opened) → all_under v.of a.atom.args ≢ all_under w.of b.atom.args }
{}

/// The constraint that is due for a constraint of a clause, whose variables stand for terms, holds exactly where the
/// clause's does under the values of these terms.
pub fn determined_constraints_hold()
    ensures { (v m : Sub) (c k : ThisCon) → RowsNormal (c ∷ []) → Some k ≡ determined m c → IsTrue (holds v k) ↔ IsTrue (holds (λ x. under v (m x)) c) }
{}
