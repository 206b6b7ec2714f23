//! What holds of unification, and of lists of constraints.
ghost use Rattle.std.specs.Prelude.{◌≡◌, ◌↔◌, ℕ, true, false, not, IsTrue, List, [], ◌∷◌, ◌++◌, Some};
ghost use Rattle.std.specs.List.{Contains, list_all};
ghost use Rattle.scasp_list.specs.Each.{Each};
ghost use Rattle.scasp_num.specs.Linear.{IsNormal, Linear, negation};
ghost use Rattle.scasp_num.specs.Number.{Number};
ghost use Rattle.scasp_num.specs.Values.{Holds};
ghost use Rattle.scasp_syntax.specs.Constraints.{Entails, Meets, Sat, holds};
ghost use Rattle.scasp_syntax.specs.RowTruth.{row_holds};
ghost use Rattle.scasp_syntax.specs.Tm.{Tm};
ghost use Rattle.scasp_syntax.specs.Values.{Sub, Valuation, under};
ghost use Rattle.scasp_syntax.specs.View.{tm_of};
ghost use Rattle.scasp_syntax.specs.declared.con.Con.{Con as ThisCon};
ghost use Rattle.scasp_syntax.specs.declared.con.Con.TheVariants as con;
ghost use Rattle.scasp_syntax.specs.declared.term.Term.TheVariants.{Var as TermVar};
ghost use Rattle.scasp_unify.specs.Negations.{is_con_below, negated};
ghost use Rattle.scasp_unify.specs.Numbers.{counts};
ghost use Rattle.scasp_unify.specs.PointMeets.{PointMeets};
ghost use Rattle.scasp_syntax.specs.RowTruth.{point};
ghost use Rattle.scasp_unify.specs.Points.{through};
ghost use Rattle.scasp_unify.specs.ResolvedRows.{resolved_row};
ghost use Rattle.scasp_unify.specs.Unification.{Absorbs, unifier};
ghost use Rattle.scasp_unify.specs.Resolver.{Equal, resolver, unifies};
ghost use Rattle.scasp_unify.specs.SimpleForm.{simple, term_with};
ghost use Rattle.scasp_unify.specs.Sorted.{Sorted, is_typed_con};
ghost use Rattle.scasp_unify.specs.TermFailures.{fails_by_terms};

/// The unifier of two terms makes them equal. And each substitution that makes them equal goes on from the unifier,
/// so there is one.
pub fn unification_is_most_general()
    ensures solves { (t u : Tm) (s : Sub) → unifier t u ≡ Some s → under s t ≡ under s u }
    ensures general { (t u : Tm) (v : Sub) → under v t ≡ under v u → (s : Sub) × (unifier t u ≡ Some s) × Absorbs v s }
{}

/// A list unifies where some substitution makes all its equations equal, and each of these goes on from what the list
/// makes of its variables, which makes them equal too.
pub fn lists_are_unified()
    ensures solves { (cs : List ThisCon) → unifies cs ≡ true → Each (Equal (resolver cs)) cs }
    ensures complete { (v : Sub) (cs : List ThisCon) → Each (Equal v) cs → (unifies cs ≡ true) × Absorbs v (resolver cs) }
    ensures idempotent { (cs : List ThisCon) → unifies cs ≡ true → Absorbs (resolver cs) (resolver cs) }
{}

/// The simple form of a constraint holds exactly where the constraint does.
pub fn simple_forms_hold()
    ensures holds { (v : Sub) (c : ThisCon) → IsTrue (holds v (simple c)) ↔ IsTrue (holds v c) }
    ensures once { (t : Tm) → tm_of (term_with t) ≡ t }
{}

/// A row holds under a valuation exactly where it holds at the valuation's numbers, and its negation exactly where it
/// does not. A row with its variables resolved holds at a point exactly where the row does at the resolved point.
pub fn rows_are_read()
    ensures bridge { (v : Sub) (r : Linear) → IsTrue (row_holds v r) ↔ Holds (point v) r }
    ensures negation { (v : Sub) (r : Linear) → row_holds v (negation r) ≡ not (row_holds v r) }
    ensures read { (v s : Sub) → Absorbs v s → (x : ℕ) → through s (point v) x ≡ point v x }
    ensures resolved { (s : Sub) (r row : Linear) → Absorbs s s → IsNormal r → Some row ≡ resolved_row s r → IsNormal row × ((p : ℕ → Number) → Holds p row ↔ Holds (through s p) r) }
{}

/// A sorted list that does not fail by terms, and that some point meets, has a valuation. And a list with a valuation,
/// sorted or not, does not fail by terms, and the valuation's numbers meet it.
pub fn lists_are_decided()
    ensures met { (cs : List ThisCon) (p : ℕ → Number) → Sorted cs → fails_by_terms cs ≡ false → Each (PointMeets cs p) cs → Sat cs }
    ensures point { (cs : List ThisCon) (v : Sub) → Meets v cs → (fails_by_terms cs ≡ false) × Each (PointMeets cs (point v)) cs }
{}

/// A constraint that a list entails adds nothing to it: the same valuations meet the list with it.
pub fn entailed_constraints_add_nothing()
    ensures { (cs : List ThisCon) (c : ThisCon) → Entails cs c → (v : Valuation) → Meets v.of (cs ++ c ∷ []) ↔ Meets v.of cs }
{}

/// A list entails a constraint exactly where it has no valuation with the negation, whose new variables start above
/// those of the list and the constraint.
pub fn negations_decide_entailment()
    ensures { (cs : List ThisCon) (c : ThisCon) (k : ℕ) → list_all (is_con_below k) cs ≡ true → is_con_below k c ≡ true → Entails cs c ↔ (Sat (cs ++ negated k c ∷ []) → ⊥) }
{}

/// A sorted list stays sorted with any further constraint but a row, with a row whose variables count as numbers, with the
/// negation of a row with which it is sorted, and, once it has no valuation, with any constraints. What counts as a
/// number in a part of a list that unifies counts in the list, and so does what a sorted list with a valuation entails
/// to be a number.
pub fn lists_stay_sorted()
    ensures kept { (cs : List ThisCon) (c : ThisCon) → Sorted cs → is_typed_con cs c ≡ true → Sorted (cs ++ c ∷ []) }
    ensures negated { (cs : List ThisCon) (r : Linear) → Sorted cs → Sorted (cs ++ con.Row r ∷ []) → Sorted (cs ++ con.Row (negation r) ∷ []) }
    ensures without { (cs ds : List ThisCon) → Sorted cs → (Sat cs → ⊥) → Sorted (cs ++ ds) }
    ensures counting { (some cs : List ThisCon) (x : ℕ) → Each (Contains cs) some → unifies cs ≡ true → counts some x ≡ true → counts cs x ≡ true }
    ensures counts { (cs : List ThisCon) (x : ℕ) → Sorted cs → Sat cs → Entails cs (con.Num (TermVar x)) → counts cs x ≡ true }
{}
