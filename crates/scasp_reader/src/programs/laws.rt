//! Laws of what is read.
ghost use Rattle.std.specs.Prelude.{◌≡◌, ℕ, true, List, Ok};
ghost use Rattle.scasp_syntax.specs.WellFormed.{are_abducible, are_well_formed};
ghost use Rattle.scasp_reader.specs.Texts.Texts.{read};
ghost use Rattle.scasp_reader.specs.declared.texts.texts.Reading.{Reading};

/// What is read of a text is well formed: every variable of a clause is below its number of variables, every variable
/// of a query below the number of its names, and the variables of a linear item ascend and hold those of its row,
/// which is in normal form. The predicates that may be assumed are distinct, and none has `-`.
pub fn texts_are_well_formed()
    ensures clauses { (names : List (List ℕ)) (bytes : List ℕ) (r : Reading) → read names bytes ≡ Ok r → are_well_formed r.clauses r.queries ≡ true }
    ensures abducibles { (names : List (List ℕ)) (bytes : List ℕ) (r : Reading) → read names bytes ≡ Ok r → are_abducible r.abducibles ≡ true }
{}
