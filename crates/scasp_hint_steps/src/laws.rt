//! What holds of hints without the steps that nothing uses.
ghost use Rattle.std.specs.Prelude.{◌≡◌, ◌≢◌, ℕ, None, true, List};
ghost use Rattle.scasp_hint.specs.AskedRows.{RowsNormal};
ghost use Rattle.scasp_hint.specs.Finding.{found, hint, nothing};
ghost use Rattle.scasp_hint.specs.Showing.{HintInRange, fault_of};
ghost use Rattle.scasp_hint_steps.specs.Pruned.{AreUsed, found_pruned, pruned};
ghost use Rattle.scasp_num.specs.declared.hints.Step.{Step};
ghost use Rattle.scasp_syntax.specs.declared.con.Con.{Con as ThisCon};
ghost use Rattle.scasp_syntax.specs.declared.hint.Hint.{Hint as ThisHint};

/// Each step that stays, but for the last one, makes a row that a later one uses.
pub fn pruned_steps_are_used()
    ensures { (k : ℕ) (steps : List Step) → AreUsed k (pruned k steps) }
{}

/// What is found, without steps that nothing uses, shows the list, and its multipliers lie from -M to M; something is found
/// exactly where some hint shows the list.
pub fn pruned_hints_show()
    ensures hint { (cs : List ThisCon) (h : ThisHint) → RowsNormal cs → found_pruned cs ≡ hint h → fault_of cs h ≡ None }
    ensures multipliers { (cs : List ThisCon) (h : ThisHint) → RowsNormal cs → found_pruned cs ≡ hint h → HintInRange h }
    ensures unshown { (cs : List ThisCon) (h : ThisHint) → RowsNormal cs → found_pruned cs ≡ nothing → fault_of cs h ≢ None }
{}
