//! What holds of the parts.
ghost use Rattle.std.specs.Prelude.{◌≡◌, ℕ, List, None, IsTrue, length};
ghost use Rattle.scasp_syntax.specs.declared.con.Con.{Con as ThisCon};
ghost use Rattle.scasp_syntax.specs.declared.hint.Hint.TheVariants as hint;
ghost use Rattle.scasp_syntax.specs.Tm.{items};
ghost use Rattle.scasp_hint.specs.Showing.{fault_of};
ghost use Rattle.scasp_checker_rules.specs.PairLists.{pair_list};
ghost use Rattle.scasp_checker_rules.specs.Told.{Told};
ghost use Rattle.scasp_checker_answer.specs.NameClashes.{clash_among};

/// Two literals with as many arguments, which differ by a name or a number are shown apart by their terms alone.
pub fn names_show_pairs_apart()
    ensures { (free : ℕ) (given : List ThisCon) (a b : Told) → length (items a.atom.args) ≡ length (items b.atom.args) → IsTrue (clash_among a.atom.args b.atom.args) → fault_of (pair_list free given a b) hint.Terms ≡ None }
{}
