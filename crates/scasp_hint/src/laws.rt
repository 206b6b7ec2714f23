//! What holds of hints, and of the lists of constraints that they show to have no valuation.
ghost use Rattle.std.specs.Prelude.{◌≡◌, ◌≢◌, ◌↔◌, ◌⊎◌, ℕ, true, false, List, ◌++◌, ◌∷◌, [], None};
ghost use Rattle.std.specs.List.{Contains, list_all};
ghost use Rattle.scasp_list.specs.Each.{Each};
ghost use Rattle.scasp_num.specs.Linear.{Linear, negation};
ghost use Rattle.scasp_num.specs.declared.hints.Step.{Step as ThisStep};
ghost use Rattle.scasp_syntax.specs.Constraints.{Entails, Sat};
ghost use Rattle.scasp_syntax.specs.declared.con.Con.{Con as ThisCon};
ghost use Rattle.scasp_syntax.specs.declared.con.Con.TheVariants as con;
ghost use Rattle.scasp_syntax.specs.declared.hint.Hint.{Hint as ThisHint};
ghost use Rattle.scasp_syntax.specs.declared.hint.Hint.TheVariants as hints;
ghost use Rattle.scasp_syntax.specs.declared.term.Term.TheVariants.{Var as TermVar};
ghost use Rattle.scasp_unify.specs.Negations.{is_con_below, negated};
ghost use Rattle.scasp_unify.specs.Numbers.{counts};
ghost use Rattle.scasp_unify.specs.Sorted.{Sorted};
ghost use Rattle.scasp_hint.specs.AskedRows.{RowsNormal};
ghost use Rattle.scasp_hint.specs.Finding.{found, hint, nothing, overflows_in, unknown_list};
ghost use Rattle.scasp_hint.specs.Satisfying.{HasPoint, sat};
ghost use Rattle.scasp_hint.specs.Showing.{HintInRange, fault_of};

/// A list passes the test exactly where it does not fail by terms and some rational point meets what it says of
/// numbers. A sorted list passes it exactly where it has a valuation, and each list with a valuation passes it.
pub fn sat_decides()
    ensures point { (cs : List ThisCon) → sat cs ≡ true ↔ HasPoint cs }
    ensures sorted { (cs : List ThisCon) → Sorted cs → sat cs ≡ true ↔ Sat cs }
    ensures always { (cs : List ThisCon) → Sat cs → sat cs ≡ true }
{}

/// A list that some hint shows does not pass the test, and has no valuation. No list of steps of such a hint is empty.
pub fn shown_lists_fail()
    ensures test { (cs : List ThisCon) (h : ThisHint) → RowsNormal cs → fault_of cs h ≡ None → sat cs ≡ false }
    ensures sat { (cs : List ThisCon) (h : ThisHint) → RowsNormal cs → fault_of cs h ≡ None → ¬ Sat cs }
    ensures steps { (cs : List ThisCon) → fault_of cs (hints.Rows []) ≢ None }
    ensures lists { (cs : List ThisCon) (n : ℕ) (lists : List (List ThisStep)) → fault_of cs (hints.Same n lists) ≡ None → Each (λ steps. steps ≢ []) lists }
{}

/// The hint that is found shows the list, and it is `Terms` where that shows it. Where nothing is found, the list
/// passes the test: no hint shows it, and where it is sorted it has a valuation. An overflow is one of a list that is
/// asked. So where no list that is asked overflows, a list fails the test exactly where some hint shows it.
pub fn hints_are_found()
    ensures hint { (cs : List ThisCon) (h : ThisHint) → RowsNormal cs → found cs ≡ hint h → fault_of cs h ≡ None }
    ensures nothing { (cs : List ThisCon) → RowsNormal cs → found cs ≡ nothing → sat cs ≡ true }
    ensures unshown { (cs : List ThisCon) (h : ThisHint) → RowsNormal cs → found cs ≡ nothing → fault_of cs h ≢ None }
    ensures sorted { (cs : List ThisCon) → RowsNormal cs → found cs ≡ nothing → Sorted cs → Sat cs }
    ensures overflow { (cs : List ThisCon) → RowsNormal cs → found cs ≡ unknown_list → overflows_in cs ≡ true }
    ensures terms { (cs : List ThisCon) → fault_of cs hints.Terms ≡ None → found cs ≡ hint hints.Terms }
    ensures test { (cs : List ThisCon) → RowsNormal cs → overflows_in cs ≡ false → sat cs ≡ false ↔ ((h : ThisHint) × (fault_of cs h ≡ None)) }
{}

/// The test of a list with the negation of a constraint decides whether the list entails it. The negation's new
/// variables start above those of the list and the constraint.
pub fn negations_are_tested()
    ensures { (cs : List ThisCon) (c : ThisCon) (k : ℕ) → list_all (is_con_below k) cs ≡ true → is_con_below k c ≡ true → Sorted (cs ++ negated k c ∷ []) → Entails cs c ↔ (sat (cs ++ negated k c ∷ []) ≡ false) }
{}

/// The multipliers of a hint that is found lie from -M to M.
pub fn multipliers_are_in_range()
    ensures { (cs : List ThisCon) (h : ThisHint) → RowsNormal cs → found cs ≡ hint h → HintInRange h }
{}

/// A row, and its negation, leave a list sorted where a part of it counts each of the row's variables as a number, or
/// entails that it is one.
pub fn rows_of_items_are_sorted()
    ensures { (part cs : List ThisCon) (r : Linear) → Each (Contains cs) part → Sorted part → Sorted cs → Each (λ k. (counts part k.x ≡ true) ⊎ Entails part (con.Num (TermVar k.x))) r.coeffs → Sorted (cs ++ con.Row r ∷ []) × Sorted (cs ++ con.Row (negation r) ∷ []) }
{}
