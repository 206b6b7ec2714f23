//! What holds of lists as they are told.
ghost use Rattle.std.specs.Prelude.{◌≡◌, true, false, nat_lt, List, []};
ghost use Rattle.std.specs.List.{list_all};
ghost use Rattle.scasp_hint.specs.AskedRows.{RowsNormal};
ghost use Rattle.scasp_list.specs.Each.{Each};
ghost use Rattle.scasp_project.specs.Meaning.{IsNoEquation};
ghost use Rattle.scasp_shorten.specs.Needed.{EachNeeded};
ghost use Rattle.scasp_shorten.specs.Following.{questions};
ghost use Rattle.scasp_shorten.specs.Shortest.{most_questions, shortest_list, thinned, without_evident};
ghost use Rattle.scasp_shorten.specs.Told.{are_rows_tested, tells_all};
ghost use Rattle.scasp_syntax.specs.Constraints.{holds};
ghost use Rattle.scasp_syntax.specs.Values.{Sub, Valuation};
ghost use Rattle.scasp_syntax.specs.declared.con.Con.{Con as ThisCon};

/// What is told of a list in which each variable of a row has a number test is what the list says.
pub fn tested_lists_are_told()
    ensures { (v : Sub) (cs : List ThisCon) → are_rows_tested cs ≡ true → tells_all v cs ≡ list_all (holds v) cs }
{}

/// Each list tells the same in its shortest form.
pub fn lists_are_shortened()
    ensures { (v : Valuation) (cs : List ThisCon) → RowsNormal cs → tells_all v.of (shortest_list cs) ≡ tells_all v.of cs }
{}

/// Of a list without equations, in which each variable of a row has a number test, and of which no more questions are left
/// than are asked, each constraint that stays is needed: what stays before it and behind it does not say it, unless its
/// negation, as it was asked, overflows. Nothing is said of number tests and excluded shapes.
pub fn what_stays_is_needed()
    ensures { (cs : List ThisCon) → RowsNormal cs → Each IsNoEquation cs → are_rows_tested cs ≡ true → nat_lt most_questions (questions (without_evident cs)) ≡ false → EachNeeded [] (thinned (without_evident cs)) }
{}
