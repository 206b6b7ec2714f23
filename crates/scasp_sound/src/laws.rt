//! What holds of atoms that a ground program supports.
ghost use Rattle.std.specs.Prelude.{◌≡◌, ℕ, ◌+◌, ◌⊎◌, Bool, IsTrue, List, [], ◌∷◌, ◌++◌, length, not, Contains};
ghost use Rattle.scasp_graph.specs.Map.{MapHolds};
ghost use Rattle.scasp_model.specs.Atoms.{SameAtoms, among};
ghost use Rattle.scasp_model.specs.Examples.{p, q, r};
ghost use Rattle.scasp_model.specs.Grounding.{ground_program};
ghost use Rattle.scasp_model.specs.Levelled.{plus_steps, plus_model, levelled_model};
ghost use Rattle.scasp_model.specs.Levels.{keeps_rule, keeps_levels};
ghost use Rattle.scasp_model.specs.Residual.{residual, residual_of};
ghost use Rattle.scasp_model.specs.Stable.{Stable};
ghost use Rattle.scasp_model.specs.declared.program.GroundClause.{GroundClause as ThisClause};
ghost use Rattle.scasp_sound.specs.Carried.{CarriedByRule};
ghost use Rattle.scasp_sound.specs.Examples.{choice, circle, entered};
ghost use Rattle.scasp_sound.specs.MapLevels.{level_of, plus_of, NoneLeft};
ghost use Rattle.scasp_sound.specs.Support.{BodiesWithin, Founded, Joins, Lower, LowerInPair, RestsBelow, Supports};
ghost use Rattle.scasp_syntax.specs.Tm.{Tm};
ghost use Rattle.scasp_syntax.specs.declared.atom.Atom.{Atom as ThisAtom};
ghost use Rattle.scasp_syntax.specs.declared.predicate_map.PredMap.{PredMap as ThisMap};
ghost use Rattle.scasp_syntax.specs.declared.program.Program.{Program as ThisProgram};

/// Where a program supports that the atoms `t` are true and the atoms `f` false, each stable model of
/// what they leave of it is, joined with `t`, a stable model of the whole.
pub fn join()
    ensures { (g : List ThisClause) (t f : List ThisAtom) → Supports g t f → Joins g t f }
{}

/// Where each atom of `t` has a rule whose positive atoms are in `t` and of smaller rank, and whose
/// negated atoms are in `f`, each of them is founded. A rank may be a pair, whose first part counts first.
pub fn ranks()
    ensures one { (g : List ThisClause) (t f : List ThisAtom) (rank : ThisAtom → ℕ) → ((a : ThisAtom) → IsTrue (among t a) → RestsBelow g t f (Lower rank) a) → (a : ThisAtom) → IsTrue (among t a) → Founded g f a }
    ensures pair { (g : List ThisClause) (t f : List ThisAtom) (first second : ThisAtom → ℕ) → ((a : ThisAtom) → IsTrue (among t a) → RestsBelow g t f (LowerInPair first second) a) → (a : ThisAtom) → IsTrue (among t a) → Founded g f a }
{}

/// Where numbered members carry atoms, each atom by a rule whose positive atoms are carried by members of
/// lower ranks and whose negated atoms are in `f`, all that they carry is founded.
pub fn carried()
    ensures { (g : List ThisClause) (f : List ThisAtom) (carries : ℕ → ThisAtom → Bool) (first second : ℕ → ℕ) → ((x : ℕ) (a : ThisAtom) → IsTrue (carries x a) → CarriedByRule g f (λ y b. IsTrue (carries y b)) first second x a) → (x : ℕ) (a : ThisAtom) → IsTrue (carries x a) → Founded g f a }
{}

/// What is founded is true in each stable model that has none of the false atoms. And each stable
/// model is supported, with atoms that it lacks as the false ones, where the two have all atoms of bodies.
pub fn support()
    ensures sound { (g : List ThisClause) (f m : List ThisAtom) → Stable g m → ((b : ThisAtom) → IsTrue (among f b) → IsTrue (not (among m b))) → (a : ThisAtom) → Founded g f a → IsTrue (among m a) }
    ensures complete { (g : List ThisClause) (f m : List ThisAtom) → Stable g m → ((b : ThisAtom) → IsTrue (among f b) → IsTrue (not (among m b))) → BodiesWithin g m f → Supports g m f }
{}

/// Rules that keep levels and signs have a stable model, the levelled one. Within a level, more steps than
/// there are rules give the same atoms.
pub fn levels()
    ensures stable { (level : ThisAtom → ℕ) (plus : ThisAtom → Bool) (g : List ThisClause) → IsTrue (keeps_levels level plus g) → Stable g (levelled_model level plus g) }
    ensures enough { (plus : ThisAtom → Bool) (g : List ThisClause) (n : ℕ) → SameAtoms (plus_steps plus g (length g + n)) (plus_model plus g) }
{}

/// What known atoms leave of rules that keep levels and signs keeps them, and of any program where each
/// clause does of which something is left. Then atoms that the program supports, with the levelled model of
/// what they leave, are a stable model of it.
pub fn extension()
    ensures kept { (level : ThisAtom → ℕ) (plus : ThisAtom → Bool) (g : List ThisClause) (t f : List ThisAtom) → IsTrue (keeps_levels level plus g) → IsTrue (keeps_levels level plus (residual t f g)) }
    ensures left { (level : ThisAtom → ℕ) (plus : ThisAtom → Bool) (g : List ThisClause) (t f : List ThisAtom) → ((c : ThisClause) → Contains g c → IsTrue (keeps_rule level plus c) ⊎ (residual_of t f c ≡ [])) → IsTrue (keeps_levels level plus (residual t f g)) }
    ensures extends { (level : ThisAtom → ℕ) (plus : ThisAtom → Bool) (g : List ThisClause) (t f : List ThisAtom) → IsTrue (keeps_levels level plus (residual t f g)) → Supports g t f → Stable g (t ++ levelled_model level plus (residual t f g)) }
{}

/// Where a program keeps a map and nothing is left of the clauses that are covered, what known atoms leave
/// of the program over a domain keeps the map's levels and signs.
pub fn kept_maps_give_levels()
    ensures { (p : ThisProgram) (checked : List ℕ) (map : List ThisMap) (d : List Tm) (t f : List ThisAtom) → MapHolds p checked map → NoneLeft p checked d t f → IsTrue (keeps_levels (level_of map) (plus_of map) (residual t f (ground_program d p))) }
{}

/// By hand: `p :- p.` does not support p; a circle with a way in supports its atoms; of a choice between
/// p and q the one is supported where the other is false, and the model of what is left joins it.
pub fn small_programs()
    ensures circle { Supports circle (p ∷ []) [] → ⊥ }
    ensures entered { Supports entered (p ∷ q ∷ []) (r ∷ []) }
    ensures choice { Supports choice (p ∷ []) (q ∷ []) }
    ensures model { Stable choice (p ∷ r ∷ []) }
{}
