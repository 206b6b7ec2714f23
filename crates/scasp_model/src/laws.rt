//! What holds of least and of stable models.
ghost use Rattle.std.specs.Prelude.{◌≡◌, ℕ, ◌+◌, IsTrue, List, length, not};
ghost use Rattle.scasp_syntax.specs.declared.atom.Atom.{Atom as ThisAtom};
ghost use Rattle.scasp_model.specs.Atoms.{SameAtoms, has_all, are_distinct};
ghost use Rattle.scasp_model.specs.Least.{rounds, least_model, is_closed};
ghost use Rattle.scasp_model.specs.Programs.{is_without_not};
ghost use Rattle.scasp_model.specs.Reduct.{definite};
ghost use Rattle.scasp_model.specs.Stable.{Stable, has_violation};
ghost use Rattle.scasp_model.specs.declared.program.DefiniteRule.{DefiniteRule as ThisRule};
ghost use Rattle.scasp_model.specs.declared.program.GroundClause.{GroundClause as ThisClause};

/// The least model is closed under the rules, each list that is closed under them has all of it, no
/// atom stands twice in it, and more rounds than there are rules add nothing.
pub fn least_model_is_least()
    ensures closed { (rules : List ThisRule) → IsTrue (is_closed rules (least_model rules)) }
    ensures within { (rules : List ThisRule) (atoms : List ThisAtom) → IsTrue (is_closed rules atoms) → IsTrue (has_all atoms (least_model rules)) }
    ensures distinct { (rules : List ThisRule) → IsTrue (are_distinct (least_model rules)) }
    ensures enough { (rules : List ThisRule) (n : ℕ) → rounds rules (length rules + n) ≡ least_model rules }
{}

/// A stable model of a program without `not` has the atoms of the least model of its rules, and the
/// least model is stable unless a denial's body is true in it.
pub fn stable_without_not_is_least()
    ensures least { (g : List ThisClause) (m : List ThisAtom) → IsTrue (is_without_not g) → Stable g m → SameAtoms m (least_model (definite g)) }
    ensures stable { (g : List ThisClause) → IsTrue (is_without_not g) → IsTrue (not (has_violation (least_model (definite g)) g)) → Stable g (least_model (definite g)) }
{}
