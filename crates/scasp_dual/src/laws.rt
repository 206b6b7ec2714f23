//! What holds of plans.
ghost use Rattle.std.specs.Prelude.{◌≡◌, map};
ghost use Rattle.scasp_syntax.specs.Programs.{predicates, rules_of};
ghost use Rattle.scasp_syntax.specs.declared.atom.Pred.{Pred as ThisPred};
ghost use Rattle.scasp_syntax.specs.declared.program.Program.{Program as ThisProgram};
ghost use Rattle.scasp_dual.specs.Plans.{plan_of, plans, pred_in, rule_in};

/// There is one plan for each predicate of the program, and it has the predicate's rules in order.
pub fn plans_have_the_rules()
    ensures predicates { (p : ThisProgram) → map pred_in (plans p) ≡ predicates p }
    ensures rules { (p : ThisProgram) (q : ThisPred) → map rule_in (plan_of p q).rules ≡ rules_of p q }
{}
