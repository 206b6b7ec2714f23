//! What holds of the bindings that a constraint makes.
ghost use Rattle.std.specs.Prelude.{◌≡◌, List, [], ◌∷◌, ◌++◌};
ghost use Rattle.scasp_constraint_store.specs.Bound.{bindings_of};
ghost use Rattle.scasp_syntax.specs.declared.con.Con.{Con as ThisCon};
ghost use Rattle.scasp_unify.specs.Resolver.{resolver};
ghost use Rattle.scasp_unify.specs.Solving.{sub_of};
ghost use Rattle.scasp_unify.specs.Unification.{then_by};

/// What the equations of a list make of its variables with one constraint more is what they made of them before, and
/// behind it the bindings that the constraint makes.
pub fn bindings_resolve()
    ensures { (cs : List ThisCon) (c : ThisCon) → resolver (cs ++ c ∷ []) ≡ then_by (resolver cs) (sub_of (bindings_of cs c)) }
{}
