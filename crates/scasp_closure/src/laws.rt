//! What holds of rules over numbers.
ghost use Rattle.std.specs.Prelude.{◌≡◌, ℕ, Bool, IsTrue, List};
ghost use Rattle.scasp_model.specs.Atoms.{SameAtoms, are_distinct};
ghost use Rattle.scasp_model.specs.Least.{least_model};
ghost use Rattle.scasp_worklist.specs.Numbered.{IsLeast};
ghost use Rattle.scasp_closure.specs.Reading.{StandFor, atoms_in};
ghost use Rattle.scasp_worklist.specs.declared.numbered.NumberedRule.{NumberedRule as ThisRule};
ghost use Rattle.scasp_model.specs.declared.program.DefiniteRule.{DefiniteRule as GroundRule};
ghost use Rattle.scasp_syntax.specs.declared.atom.Atom.{Atom as ThisAtom};

/// Where rules over numbers stand for rules, by a table of distinct atoms, their least set stands for the least model.
pub fn least_set_is_least_model()
    ensures { (table : List ThisAtom) (numbered : List ThisRule) (rules : List GroundRule) (set : ℕ → Bool)
        → IsTrue (are_distinct table) → StandFor table numbered rules → IsLeast numbered set
        → SameAtoms (atoms_in set table) (least_model rules) }
{}
