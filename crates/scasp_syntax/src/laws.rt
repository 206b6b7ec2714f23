//! What holds of terms and programs.
ghost use Rattle.std.specs.Prelude.{◌≡◌, ◌≢◌, ◌↔◌, ℕ, IsTrue, List, length};
ghost use Rattle.scasp_list.specs.Each.{Each};
ghost use Rattle.scasp_num.specs.Linear.{Linear};
ghost use Rattle.scasp_num.specs.Number.{Number};
ghost use Rattle.scasp_num.specs.Values.{Holds};
ghost use Rattle.scasp_syntax.specs.Same.{same_tm, same_tms, same_pred, same_atom, same_lit};
ghost use Rattle.scasp_syntax.specs.Constraints.{holds};
ghost use Rattle.scasp_syntax.specs.Tm.{Tm, Tms, num, app, items};
ghost use Rattle.scasp_syntax.specs.RowTruth.{point};
ghost use Rattle.scasp_syntax.specs.Values.{Sub, Valuation, under, is_ground};
ghost use Rattle.scasp_syntax.specs.View.{tm_of};
ghost use Rattle.scasp_syntax.specs.WellFormed.{HasNormalRow, are_well_formed};
ghost use Rattle.scasp_syntax.specs.Denials.{with_denials};
ghost use Rattle.scasp_syntax.specs.declared.con.Con.TheVariants as con;
ghost use Rattle.scasp_syntax.specs.declared.term.Term.{Term as ThisTerm};
ghost use Rattle.scasp_syntax.specs.declared.atom.Atom.{Atom as ThisAtom};
ghost use Rattle.scasp_syntax.specs.declared.atom.Lit.{Lit as ThisLit};
ghost use Rattle.scasp_syntax.specs.declared.atom.Pred.{Pred as ThisPred};
ghost use Rattle.scasp_syntax.specs.declared.clause.Clause.{Clause as ThisClause};
ghost use Rattle.scasp_syntax.specs.declared.clause.Query.{Query as ThisQuery};
ghost use Rattle.scasp_syntax.specs.declared.program.Program.{Program as ThisProgram};

/// The tests of equality answer true exactly for what is equal.
pub fn equality_is_decided()
    ensures terms { (t u : Tm) → IsTrue (same_tm t u) ↔ (t ≡ u) }
    ensures lists { (ts us : Tms) → IsTrue (same_tms ts us) ↔ (ts ≡ us) }
    ensures predicates { (p q : ThisPred) → IsTrue (same_pred p q) ↔ (p ≡ q) }
    ensures atoms { (a b : ThisAtom) → IsTrue (same_atom a b) ↔ (a ≡ b) }
    ensures literals { (l k : ThisLit) → IsTrue (same_lit l k) ↔ (l ≡ k) }
{}

/// One substitution after another is one substitution, and a valuation makes each term ground.
pub fn substitutions_compose()
    ensures composed { (r s : Sub) (t : Tm) → under r (under s t) ≡ under (λ x. under r (s x)) t }
    ensures ground { (v : Valuation) (t : Tm) → IsTrue (is_ground (under v.of t)) }
{}

/// An equation holds exactly where both sides have one value, and a disequation exactly where they have not.
pub fn equations_hold_for_equal_values()
    ensures equation { (v : Sub) (t s : ThisTerm) → IsTrue (holds v (con.Eq t s)) ↔ (under v (tm_of t) ≡ under v (tm_of s)) }
    ensures disequation { (v : Sub) (t s : ThisTerm) → IsTrue (holds v (con.Neq t s)) ↔ (under v (tm_of t) ≢ under v (tm_of s)) }
{}

/// A term is a number exactly where its value is one, and it is none exactly where its value is none.
pub fn numbers_are_tested()
    ensures number { (v : Sub) (t : ThisTerm) → IsTrue (holds v (con.Num t)) ↔ ((q : Number) × (under v (tm_of t) ≡ num q)) }
    ensures no_number { (v : Sub) (t : ThisTerm) → IsTrue (holds v (con.NotNum t)) ↔ ((q : Number) → under v (tm_of t) ≢ num q) }
{}

/// A variable has not a name with so many arguments exactly where its value is no such term.
pub fn shapes_are_excluded()
    ensures { (v : Sub) (x name arity : ℕ) → IsTrue (holds v (con.NotShape x name arity)) ↔ ((ts : Tms) → length (items ts) ≡ arity → v x ≢ app name ts) }
{}

/// A row holds exactly where it is true of the numbers that the variables are.
pub fn rows_hold_at_points()
    ensures { (v : Sub) (r : Linear) → IsTrue (holds v (con.Row r)) ↔ Holds (point v) r }
{}

/// Each row of a program is in normal form.
pub fn programs_have_normal_rows()
    ensures clauses { (p : ThisProgram) → Each (λ c. Each HasNormalRow c.body) p.clauses }
    ensures queries { (p : ThisProgram) → Each (λ q. Each HasNormalRow q.body) p.queries }
{}

/// The generated denials are well formed, whatever occurs.
pub fn generated_denials_are_well_formed()
    ensures { (clauses : List ThisClause) (queries : List ThisQuery) → IsTrue (are_well_formed clauses queries) → IsTrue (are_well_formed (with_denials clauses queries) queries) }
{}
