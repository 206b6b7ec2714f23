//! What holds of filled trees.
ghost use Rattle.std.specs.Prelude.{◌≡◌, ◌++◌, Bool, false, not, IsTrue};
ghost use Rattle.std.specs.List.{list_all, list_any};
ghost use Rattle.scasp_syntax.specs.declared.program.Program.{Program as ThisProgram};
ghost use Rattle.scasp_cert.specs.Certificate.{Certificate};
ghost use Rattle.scasp_cert.specs.Skeleton.{skeleton};
ghost use Rattle.scasp_checker_rules.specs.Accepted.{AcceptsWhere};
ghost use Rattle.scasp_checker_rules.specs.Normality.{AreRowsNormal};
ghost use Rattle.scasp_hint.specs.Finding.{overflows_in};
ghost use Rattle.scasp_hint.specs.Satisfying.{sat};
ghost use Rattle.scasp_search_rules.specs.Successors.Answers.{hint_lists, pair_lists};
ghost use Rattle.scasp_fill.specs.Filling.Filled.{filled, is_filling_known};

/// Where no list overflows that could hide a hint or a clash line, a certificate that is accepted with any hints and clash
/// lines is accepted with those that are found. So a tree whose filled form is refused has none with which it is accepted.
pub fn filling_serves()
    ensures { (positives : Bool) (p : ThisProgram) (c other : Certificate) → AreRowsNormal p c → IsTrue (is_filling_known p c) → skeleton other ≡ skeleton c → AcceptsWhere positives p other → AcceptsWhere positives p (filled p c) }
{}

/// Filling changes hints and clash lines alone.
pub fn filling_keeps_the_tree()
    ensures { (p : ThisProgram) (c : Certificate) → skeleton (filled p c) ≡ skeleton c }
{}

/// Where such a list overflows, and each list of a pair fails the test, one overflows that the search asks of the tree.
pub fn unknown_fillings_overflow()
    ensures { (p : ThisProgram) (c : Certificate) → AreRowsNormal p c → is_filling_known p c ≡ false → IsTrue (list_all (λ cs. not (sat cs)) (pair_lists p c)) → IsTrue (list_any overflows_in (pair_lists p c ++ hint_lists p c)) }
{}
