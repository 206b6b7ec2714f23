//! Laws of the definitions, as functions that do nothing.
ghost use Rattle.std.specs.Prelude.{◌≡◌, ◌↔◌, ℤ, true, is_some, List, Ok, Err};
ghost use Rattle.scasp_num.specs.declared.hints.Step.{Step};
ghost use Rattle.scasp_num.specs.declared.linear.RatPair.{RatPair};
ghost use Rattle.scasp_list.specs.Each.{Each};
ghost use Rattle.scasp_num.specs.Linear.{IsNormal, Linear};
ghost use Rattle.scasp_rows.specs.PlainRows.{is_met};
ghost use Rattle.scasp_rows.specs.Points.{IsMet, MeetsAll, NoDisequation, RationalPoint};
ghost use Rattle.std.specs.List.{list_all};
ghost use Rattle.scasp_num.specs.Arithmetic.{in_range};
ghost use Rattle.scasp_rows.specs.Steps.{ReachesFalse, row_sum, step_integers};
ghost use Rattle.scasp_rows.specs.Elimination.{elimination};
ghost use Rattle.scasp_rows.specs.Samples.{MeetsBoth, alternatives, MeetsSome, OnlyDisequations, point_of, value_in};
ghost use Rattle.scasp_rows.specs.declared.state.Halt.TheVariants as halts;
ghost use Rattle.scasp_rows.specs.declared.state.State.{State};

/// Rows from which steps reach a false constant row are met by no point.
pub fn false_row_reached()
    ensures { (rows : List Linear) (steps : List Step) (v : RationalPoint) → ReachesFalse rows steps → ¬ MeetsAll v rows }
{}

/// Where the elimination ends as unsatisfiable, its steps reach a false constant row.
pub fn unsat_reached()
    ensures { (rows : List Linear) (steps : List Step) → NoDisequation rows → elimination rows ≡ Err (halts.Unsat steps) → ReachesFalse rows steps }
{}

/// Where the elimination goes through, some point meets all the rows.
pub fn sat_met()
    ensures { (rows : List Linear) (s : State) → Each IsNormal rows → NoDisequation rows → elimination rows ≡ Ok s → IsMet rows }
{}

/// The elimination without bounds decides whether some rational point meets all the rows.
pub fn rows_are_decided()
    ensures { (rows : List Linear) → NoDisequation rows → is_met rows ≡ true ↔ IsMet rows }
{}

/// A point found for rows meets them.
pub fn point_met()
    ensures { (rows : List Linear) (point : List RatPair) → Each IsNormal rows → NoDisequation rows → point_of rows ≡ Ok point → MeetsAll (value_in point) rows }
{}

/// One disequation at a time is enough: rows and disequations, each the list of its parts, are met by one point
/// exactly where some point meets the rows, and for each single disequation some point meets the rows and a
/// part of it. For a convex set that lies inside a union of finitely many hyperplanes lies inside one.
pub fn one_at_a_time()
    ensures { (rows : List Linear) (differ : List (List Linear)) → NoDisequation rows → Each OnlyDisequations differ → ((v : RationalPoint) × MeetsBoth v rows differ)
        ↔ (IsMet rows × Each (λ parts. (v : RationalPoint) × MeetsAll v rows × MeetsSome v parts) differ) }
{}

/// The sum of two rows with multipliers is made exactly where all its products and sums lie in range.
pub fn sum_fits()
    ensures { (a b : ℤ) (p q : Linear) → IsNormal p → IsNormal q → is_some (row_sum a p b q) ≡ list_all in_range (step_integers a p b q) }
{}

/// Each part of a disequation, in normal form, has its rows below and above 0: their numbers lie in range.
pub fn alternatives_made()
    ensures { (parts : List Linear) → Each IsNormal parts → is_some (alternatives parts) ≡ true }
{}
