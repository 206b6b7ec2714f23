//! What holds of the lines of accepted certificates at their instances.
ghost use Rattle.std.specs.Prelude.{◌≡◌, ◌∷◌, ℕ, Bool, IsTrue, List, [], Some, map, not, Contains};
ghost use Rattle.std.specs.List.{list_all, list_any};
ghost use Rattle.scasp_model.specs.Atoms.{among};
ghost use Rattle.scasp_model.specs.Grounding.{ground_program, instances};
ghost use Rattle.scasp_model.specs.Residual.{is_known_false, residual};
ghost use Rattle.scasp_model.specs.Stable.{Stable};
ghost use Rattle.scasp_model.specs.declared.program.GroundClause.{GroundClause as ThisGroundClause};
ghost use Rattle.scasp_graph.specs.Map.{MapHolds};
ghost use Rattle.scasp_sound.specs.MapLevels.{covered};
ghost use Rattle.scasp_sound.specs.Support.{Founded};
ghost use Rattle.scasp_cert.specs.Certificate.{Certificate};
ghost use Rattle.scasp_cert.specs.Flat.{is_flat};
ghost use Rattle.scasp_cert.specs.Trees.{Branch, Tree, test_tree, void};
ghost use Rattle.scasp_syntax.specs.Programs.{numbered};
ghost use Rattle.scasp_syntax.specs.declared.clause.Clause.{Clause as ThisClause};
ghost use Rattle.scasp_lines.specs.Bodies.{Body};
ghost use Rattle.scasp_lines.specs.Dues.{Due, goal};
ghost use Rattle.scasp_lines.specs.Said.{false_atoms, is_closed_over, true_atoms};
ghost use Rattle.scasp_lines.specs.Scopes.{excludes_no_parts};
ghost use Rattle.scasp_lines.specs.Walk.{Line, of_case, of_node};
ghost use Rattle.scasp_law_promise.specs.Carriers.{Carrier};
ghost use Rattle.scasp_law_promise.specs.Examples.{alone, aside, circle, denied, doubted, even, fact, looped, odd, q, unchecked};
ghost use Rattle.scasp_law_promise.specs.Good.{Good, GoodRight, HasClosedDomains, holds_by, query_values, residual_over};
ghost use Rattle.scasp_law_promise.specs.Kept.{KeepsPromise};
ghost use Rattle.scasp_law_promise.specs.OwnRows.{has_normal_rows};
ghost use Rattle.scasp_law_promise.specs.Premises.{IsAt, Premises};
ghost use Rattle.scasp_checker_rules.specs.Accepted.{AcceptsWhere};
ghost use Rattle.scasp_checker_rules.specs.Normality.{AreRowsNormal};
ghost use Rattle.scasp_syntax.specs.Constraints.{holds};
ghost use Rattle.scasp_syntax.specs.Tm.{Tm};
ghost use Rattle.scasp_syntax.specs.Values.{Sub};
ghost use Rattle.scasp_syntax.specs.declared.atom.Atom.{Atom as ThisAtom};
ghost use Rattle.scasp_syntax.specs.declared.atom.Lit.{Lit as ThisLit};
ghost use Rattle.scasp_syntax.specs.declared.con.Con.{Con as ThisCon};
ghost use Rattle.scasp_syntax.specs.declared.hint.Hint.{Hint as ThisHint};
ghost use Rattle.scasp_syntax.specs.declared.program.Program.{Program as ThisProgram};

/// The constraint on a line holds at the line's instances, and a case that is void has none.
pub fn hints_hold()
    ensures test { (b : Bool) (p : ThisProgram) (c : Certificate) (m : Premises b p c) (l : Line) (v : Sub) → IsAt b p c m l v → (due : Due) (k : ThisCon) (h : ThisHint) → l.part ≡ of_node due (test_tree k h) → IsTrue (excludes_no_parts k) → IsTrue (holds v k) }
    ensures void { (b : Bool) (p : ThisProgram) (c : Certificate) (m : Premises b p c) (l : Line) (v : Sub) → IsAt b p c m l v → (body : Body) (h : ThisHint) → l.part ≡ of_case body (void h) → ⊥ }
{}

/// What is due on a line is carried by a line of that literal, which has the same instance: by itself, by one above
/// that it loops to, or by one that has ended.
pub fn carrier()
    ensures { (b : Bool) (p : ThisProgram) (c : Certificate) (m : Premises b p c) (x : Line) (v : Sub) → IsAt b p c m x v → (l : ThisLit) (t : Tree) → x.part ≡ of_node (goal l) t → Carrier b p c m x t l v }
{}

/// No atom is said to be true and false.
pub fn apart()
    ensures { (b : Bool) (p : ThisProgram) (c : Certificate) (m : Premises b p c) (a : ThisAtom) → IsTrue (among (true_atoms p c m.free.of m.domain) a) → IsTrue (not (among (false_atoms p c m.free.of m.domain) a)) }
{}

/// The query holds under the answer's terms.
pub fn query()
    ensures { (b : Bool) (p : ThisProgram) (c : Certificate) (m : Premises b p c) → IsTrue (list_all (holds_by (true_atoms p c m.free.of m.domain) (false_atoms p c m.free.of m.domain) (query_values c m.free.of)) m.accepted.query.body) }
{}

/// What is said to be true over a closed domain is founded in the program over it.
pub fn founded()
    ensures { (b : Bool) (p : ThisProgram) (c : Certificate) (m : Premises b p c) → IsTrue (is_closed_over p c m.free.of m.domain) → (a : ThisAtom) → IsTrue (among (true_atoms p c m.free.of m.domain) a) → Founded (ground_program m.domain p) (false_atoms p c m.free.of m.domain) a }
{}

/// Each rule for what is said to be false has a literal that is known to be false.
pub fn refuted()
    ensures { (b : Bool) (p : ThisProgram) (c : Certificate) (m : Premises b p c) (g : ThisGroundClause) (a : ThisAtom) → Contains (ground_program m.domain p) g → g.head ≡ Some a → IsTrue (among (false_atoms p c m.free.of m.domain) a) → IsTrue (list_any (is_known_false (true_atoms p c m.free.of m.domain) (false_atoms p c m.free.of m.domain)) g.body) }
{}

/// Nothing is left of the instances of a clause that is checked.
pub fn covered_clauses_are_gone()
    ensures { (b : Bool) (p : ThisProgram) (c : Certificate) (m : Premises b p c) (k : ℕ) → Contains (map (λ (x : ℕ × Branch). x.0) c.checks) k → (clause : ThisClause) → numbered p.clauses k ≡ Some clause → residual (true_atoms p c m.free.of m.domain) (false_atoms p c m.free.of m.domain) (instances m.domain clause) ≡ [] }
{}

/// An accepted certificate with rows in normal form keeps its promise.
pub fn accepted_is_good()
    ensures { (b : Bool) (p : ThisProgram) (c : Certificate) → AreRowsNormal p c → AcceptsWhere b p c → Good p c }
{}

/// Where the program keeps the certificate's map but for the clauses that are checked, what an accepted certificate
/// leaves of it has a stable model each time, the levelled one.
pub fn right_is_good_with_existence()
    ensures { (b : Bool) (p : ThisProgram) (c : Certificate) → AreRowsNormal p c → AcceptsWhere b p c → MapHolds p (covered c) c.map → GoodRight p c }
{}

/// Above each domain there is one that is closed for an accepted certificate which is flat, so that its promise is not empty.
pub fn closed_domains_exist()
    ensures { (b : Bool) (p : ThisProgram) (c : Certificate) → AcceptsWhere b p c → IsTrue (is_flat c) → HasClosedDomains p c }
{}

/// The rows of each program are in normal form; so where those that stand in a certificate are, all are that its
/// acceptance speaks of.
pub fn rows_are_normal()
    ensures { (p : ThisProgram) (c : Certificate) → IsTrue (has_normal_rows c) → AreRowsNormal p c }
{}

/// An accepted certificate, whose rows are in normal form as those of each `Cert` are, keeps all of its promise.
pub fn accepted_keeps_its_promise()
    ensures { (b : Bool) (p : ThisProgram) (c : Certificate) → IsTrue (has_normal_rows c) → AcceptsWhere b p c → KeepsPromise p c }
{}

/// By the definition alone: of `p :- p.` neither the one line that p holds by rule 1, nor that line with a loop below it,
/// is good; nor, of the fact p, that it does not hold. The first is right for `p.`; and for an even loop beside a fact r,
/// so is the line of r: it leaves the loop, of which q is a stable model. For an odd loop beside a fact, the fact's line is
/// good and not right: what it leaves has no stable model.
pub fn small_certificates()
    ensures alone { Good circle alone → ⊥ }
    ensures looped { Good circle looped → ⊥ }
    ensures denied { Good doubted denied → ⊥ }
    ensures fact { GoodRight fact alone }
    ensures even { GoodRight even aside }
    ensures model { (v : Sub) (d : List Tm) → Stable (residual_over even aside v d) (q ∷ []) }
    ensures odd { Good odd unchecked × (GoodRight odd unchecked → ⊥) }
{}
