//! What holds of projections.
ghost use Rattle.std.specs.Prelude.{◌≡◌, ◌↔◌, ℕ, false, List, Ok, None, Some};
ghost use Rattle.scasp_hint.specs.AskedRows.{RowsNormal};
ghost use Rattle.scasp_list.specs.Each.{Each};
ghost use Rattle.scasp_num.specs.Linear.{IsNormal, Linear};
ghost use Rattle.scasp_project.specs.Dropped.{is_dropped, row_has};
ghost use Rattle.scasp_project.specs.LeftRows.{elimination_dropping};
ghost use Rattle.scasp_rows.specs.LeftRows.{rows_left};
ghost use Rattle.scasp_project.specs.declared.projecting.Projected.TheVariants as answers;
ghost use Rattle.scasp_project.specs.Meaning.{Extends, IsNoEquation, MeetsOne};
ghost use Rattle.scasp_project.specs.Projection.{projection};
ghost use Rattle.scasp_syntax.specs.Constraints.{Sat};
ghost use Rattle.scasp_syntax.specs.Values.{Valuation};
ghost use Rattle.scasp_unify.specs.Sorted.{Sorted};
ghost use Rattle.scasp_syntax.specs.declared.con.Con.{Con as ThisCon};
ghost use Rattle.scasp_rows.specs.Points.{MeetsAll, NoDisequation, RationalPoint};

/// The rows that are left where variables are eliminated have none of these, and a point meets them exactly where other
/// values of these variables meet all the rows. Where a false row is reached, no point meets the rows.
pub fn rows_are_projected()
    ensures lacks { (keep : List ℕ) (rows left : List Linear) → Each IsNormal rows → NoDisequation rows → rows_left (elimination_dropping keep rows) ≡ Ok (Some left) → Each (λ r. row_has (is_dropped keep) r ≡ false) left }
    ensures extends { (keep : List ℕ) (rows left : List Linear) → Each IsNormal rows → NoDisequation rows → rows_left (elimination_dropping keep rows) ≡ Ok (Some left) → (v : RationalPoint)
        → MeetsAll v left ↔ ((w : RationalPoint) × MeetsAll w rows × ((x : ℕ) → is_dropped keep x ≡ false → w x ≡ v x)) }
    ensures denied { (keep : List ℕ) (rows : List Linear) (v : RationalPoint) → NoDisequation rows → rows_left (elimination_dropping keep rows) ≡ Ok None → ¬ MeetsAll v rows }
{}

/// Of a sorted list without equations: a valuation of the kept variables can be extended to one that meets the list
/// exactly where it meets one of the alternatives.
pub fn projections_mean()
    ensures { (cs : List ThisCon) (keep : List ℕ) (lists : List (List ThisCon)) → RowsNormal cs → Each IsNoEquation cs → Sorted cs → projection cs keep ≡ Some (answers.Alternatives lists) → (v : Valuation) → Extends keep v cs ↔ MeetsOne v.of lists }
{}

/// Of a sorted list without equations: each of the alternatives has a valuation.
pub fn alternatives_are_possible()
    ensures { (cs : List ThisCon) (keep : List ℕ) (lists : List (List ThisCon)) → RowsNormal cs → Each IsNoEquation cs → Sorted cs → projection cs keep ≡ Some (answers.Alternatives lists) → Each Sat lists }
{}
