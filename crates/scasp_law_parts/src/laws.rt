//! What holds of parts of a list of constraints.
ghost use Rattle.std.specs.Prelude.{◌≡◌, ◌↔◌, ℕ, Bool, true, false, not, nat_eq, List, [], ◌∷◌, ◌++◌, map, Option};
ghost use Rattle.std.specs.List.{filter, list_all};
ghost use Rattle.scasp_hint.specs.Satisfying.{sat};
ghost use Rattle.scasp_law_parts.specs.Bound.{AreSolved, IsFree, Triangular, equations};
ghost use Rattle.scasp_law_parts.specs.Fixed.{IsCut, Makes, cut_with};
ghost use Rattle.scasp_law_parts.specs.Index.{HasNumber, IsIndex, IsWalk};
ghost use Rattle.scasp_law_parts.specs.Parts.{SatUnder, are_parted, inside, lies_within, outside};
ghost use Rattle.scasp_law_parts.specs.Questions.{IsEnough, IsReadable, StandsForAll, part_read, part_with};
ghost use Rattle.scasp_list.specs.Each.{Each};
ghost use Rattle.scasp_num.specs.Linear.{Linear};
ghost use Rattle.scasp_num.specs.Number.{Number};
ghost use Rattle.scasp_num.specs.Values.{Holds};
ghost use Rattle.scasp_search_rules.specs.Successors.Reading.{con_under};
ghost use Rattle.scasp_syntax.specs.Constraints.{Sat};
ghost use Rattle.scasp_syntax.specs.Tm.{Tm, num, var};
ghost use Rattle.scasp_syntax.specs.Values.{Sub, under};
ghost use Rattle.scasp_syntax.specs.View.{tm_of};
ghost use Rattle.scasp_syntax.specs.declared.con.Con.{Con as ThisCon};
ghost use Rattle.scasp_syntax.specs.declared.con.Con.TheVariants as con;
ghost use Rattle.scasp_syntax.specs.declared.term.Term.TheVariants.{Var as TermVar};
ghost use Rattle.scasp_unify.specs.Parts.{occurs};
ghost use Rattle.scasp_unify.specs.Solving.{sub_of};
ghost use Rattle.scasp_unify.specs.Unification.{Absorbs, single, then_by};
ghost use Rattle.scasp_unify.specs.declared.bindings.Binding.{Binding as ThisBinding};

/// Constraints that share no variable with the others of their list have a valuation, and so have the others, exactly
/// where the list has one.
pub fn parts_are_met_apart()
    ensures { (s : Sub) (p : ℕ → Bool) (cs : List ThisCon) → are_parted s p cs ≡ true → SatUnder s cs ↔ (SatUnder s (inside s p cs) × SatUnder s (outside s p cs)) }
{}

/// Where a part is enough, the list with what is asked has a valuation exactly where the part with it has one.
pub fn parts_decide()
    ensures { (s : Sub) (f : ThisCon → Bool) (p : ℕ → Bool) (cs asked : List ThisCon) → IsEnough s f p cs asked → SatUnder s (cs ++ asked) ↔ SatUnder s (part_with s f p cs asked) }
{}

/// Bindings that stand as equations before constraints may leave the list: what is left has a valuation, as the bindings
/// read it, exactly where the list has one.
pub fn bindings_leave_the_list()
    ensures { (bs : List ThisBinding) (cs : List ThisCon) → AreSolved bs → Sat (equations bs ++ cs) ↔ SatUnder (sub_of bs) cs }
{}

/// Constraints that are readable have a valuation, as a substitution reads them, exactly where they have one written so.
pub fn readings_are_met_alike()
    ensures { (s : Sub) (cs : List ThisCon) → Absorbs s s → Each (IsReadable s) cs → SatUnder s cs ↔ Sat (map (con_under s) cs) }
{}

/// The question whether bindings, constraints and what is asked have a valuation is answered by the part, as the bindings
/// read it, wherever this may be asked in place of the whole list.
pub fn parts_answer_for_all()
    ensures { (bs : List ThisBinding) (f : ThisCon → Bool) (p : ℕ → Bool) (cs asked : List ThisCon) → StandsForAll bs f p cs asked → sat (equations bs ++ (cs ++ asked)) ≡ sat (part_read bs f p cs asked) }
{}

/// A closed walk over an index finds a part: no constraint of the index has both a variable that the walk began with and
/// another one.
pub fn walks_find_parts()
    ensures { (s : Sub) (bound : ℕ → Option Tm) (at : ℕ → Option ThisCon) (watch users : ℕ → ℕ → Bool) (p q : ℕ → Bool) (cs : List ThisCon) → IsIndex s bound at watch users → IsWalk s at watch users p q → Each (HasNumber at) cs → are_parted s p cs ≡ true }
{}

/// Bindings of which none speaks of a variable that it or an earlier one binds make their own equations true. They stay
/// such where one is added that speaks of none of their variables and of its own, and where some are taken out. What had
/// a valuation has one with some taken out, and with one added whose variable stands in nothing that was read.
pub fn triangular_bindings_are_solved()
    ensures solved { (bs : List ThisBinding) → Triangular bs → AreSolved bs }
    ensures more { (bs : List ThisBinding) (b : ThisBinding) → Triangular bs → occurs b.x (tm_of b.term) ≡ false → Each (λ a. IsFree a.x b) bs → Triangular (bs ++ b ∷ []) }
    ensures fewer { (f : ThisBinding → Bool) (bs : List ThisBinding) → Triangular bs → Triangular (filter f bs) }
    ensures met_with_fewer { (f : ThisBinding → Bool) (bs : List ThisBinding) (cs : List ThisCon) → Triangular bs → SatUnder (sub_of bs) cs → SatUnder (sub_of (filter f bs)) cs }
    ensures met_with_more { (bs : List ThisBinding) (b : ThisBinding) (cs : List ThisCon) → list_all (lies_within (sub_of bs) (λ y. not (nat_eq y b.x))) cs ≡ true → SatUnder (sub_of bs) cs → SatUnder (sub_of (bs ++ b ∷ [])) cs }
{}

/// A number test with a row that leaves its variable one value makes it this number. A part that shares only such
/// variables with the rest is asked together with what makes them numbers. And such a variable, bound to anything else,
/// leaves no valuation.
pub fn fixed_numbers_part()
    ensures made { (s : Sub) (x : ℕ) (q : Number) (r : Linear) → s x ≡ var x → ((p : ℕ → Number) → Holds p r → p x ≡ q) → Makes s (con.Num (TermVar x) ∷ con.Row r ∷ []) x q }
    ensures decide { (s : Sub) (p f : ℕ → Bool) (value : ℕ → Number) (cs facts asked : List ThisCon) → IsCut s p f value cs facts asked → SatUnder s (cs ++ asked) ↔ SatUnder s (cut_with s p f cs facts asked) }
    ensures refuses { (s : Sub) (cs : List ThisCon) (x : ℕ) (q : Number) (t : Tm) → Makes s cs x q → ((w : Sub) → under w t ≡ num q → ⊥) → SatUnder (then_by s (single x t)) cs → ⊥ }
{}
