//! What holds of the lines of a certificate.
ghost use Rattle.std.specs.List.{Contains, list_all, list_any};
ghost use Rattle.std.specs.Prelude.{◌≡◌, ◌↔◌, ℕ, Bool, ◌+◌, ◌<◌, ◌≤◌, IsTrue, IsFalse, List, ◌++◌, length, Some, true, not};
ghost use Rattle.scasp_syntax.specs.Constraints.{Meets, holds};
ghost use Rattle.scasp_syntax.specs.Flat.{flat_body};
ghost use Rattle.scasp_syntax.specs.Programs.{numbered};
ghost use Rattle.scasp_syntax.specs.Same.{same_tm};
ghost use Rattle.scasp_syntax.specs.Tm.{Tm, Tms, items};
ghost use Rattle.scasp_syntax.specs.Values.{Sub, all_under, giving, is_ground};
ghost use Rattle.scasp_syntax.specs.declared.atom.Atom.{Atom as ThisAtom};
ghost use Rattle.scasp_syntax.specs.declared.clause.FlatItem.{FlatItem as ThisFlatItem};
ghost use Rattle.scasp_syntax.specs.declared.clause.Query.{Query as ThisQuery};
ghost use Rattle.scasp_syntax.specs.declared.con.Con.{Con as ThisCon};
ghost use Rattle.scasp_syntax.specs.declared.program.Program.{Program as ThisProgram};
ghost use Rattle.scasp_cert.specs.Certificate.{Certificate};
ghost use Rattle.scasp_cert.specs.Flat.{is_flat};
ghost use Rattle.scasp_cert.specs.Lines.{all_lines};
ghost use Rattle.scasp_cert.specs.Trees.{Branch, listed};
ghost use Rattle.scasp_lines.specs.Below.{HasBelow, HasQueryItems};
ghost use Rattle.scasp_lines.specs.Bodies.{Body};
ghost use Rattle.scasp_lines.specs.ClosedDomainOnly.{a, certificate, free, program};
ghost use Rattle.scasp_lines.specs.Contexts.{AreInDomain, context};
ghost use Rattle.scasp_lines.specs.Covers.{cover_from, covering, value_of};
ghost use Rattle.scasp_lines.specs.Descent.{Ends};
ghost use Rattle.scasp_lines.specs.Dues.{due_of};
ghost use Rattle.scasp_lines.specs.Known.{are_known, is_known};
ghost use Rattle.scasp_lines.specs.Lines.{lines, setting, walk_of};
ghost use Rattle.scasp_unify.specs.Negations.{negated};
ghost use Rattle.scasp_lines.specs.Numbering.{Counts, lines_of_part};
ghost use Rattle.scasp_lines.specs.Opened.{IsInstance, Opened, knows, well, AllMet, AreUnknown};
ghost use Rattle.scasp_lines.specs.OpeningLaws.{CoverGrows, CoverIsMet, OpeningFits, OpeningGrows, OpeningIsMet, OpeningSays};
ghost use Rattle.scasp_lines.specs.Openings.{Opening, open_terms};
ghost use Rattle.scasp_lines.specs.Places.{start};
ghost use Rattle.scasp_lines.specs.Said.{Said, SaysAt, are_in, are_lines_known, atoms_of, is_closed_over, said};
ghost use Rattle.scasp_lines.specs.Scopes.{PartFits, are_lines_scoped, excludes_no_parts};
ghost use Rattle.scasp_lines.specs.Surroundings.{PartSurrounded};
ghost use Rattle.scasp_lines.specs.Walk.{Line, Setting, of_case};
ghost use Rattle.scasp_lines.specs.Ways.{ways};

/// The instances of what opened, as a list and as a relation, agree. An instance is ground where the free values and
/// the domain are, and is one of what had opened before. Values meet the context exactly where they meet what is given
/// and what opened, but for the domain.
pub fn ways_are_instances()
    ensures met { (d : List Tm) (n : ℕ) (os : List Opened) (free w : Sub) → IsTrue (well n os)
        → Contains (ways d os free) w → IsInstance n d free os w }
    ensures listed { (d : List Tm) (n : ℕ) (os : List Opened) (free v : Sub) → IsTrue (well n os) → IsInstance n d free os v
        → (w : Sub) × Contains (ways d os free) w × ((x : ℕ) → IsTrue (knows n os x) → w x ≡ v x) }
    ensures ground { (d : List Tm) (os : List Opened) (free w : Sub) → IsTrue (list_all is_ground d)
        → ((x : ℕ) → IsTrue (is_ground (free x))) → Contains (ways d os free) w → (x : ℕ) → IsTrue (is_ground (w x)) }
    ensures context { (d : List Tm) (given : List ThisCon) (os : List Opened) (v : Sub)
        → (Meets v given × AllMet d v os) ↔ (Meets v (context given os) × AreInDomain d v os) }
    ensures before { (n : ℕ) (d : List Tm) (free : Sub) (more os : List Opened) (v : Sub)
        → IsInstance n d free (more ++ os) v → IsInstance n d free os v }
{}

/// What opens where a rule is taken at a literal whose variables are known: it fits what opened before; and it can be
/// met exactly where the literal's terms have the values of the head's, by values that agree on what was known.
pub fn openings_are_met()
    ensures fits { (n : ℕ) (heads literals : Tms) (o : Opening) → OpeningFits n o
        → IsTrue (are_known (knows n o.opened) literals) → OpeningGrows n o (open_terms heads literals o) }
    ensures met { (n : ℕ) (d : List Tm) (s : Sub) (heads literals : Tms) (o : Opening) (v : Sub) → OpeningFits n o
        → OpeningSays d s o v → IsTrue (are_known (knows n o.opened) literals)
        → all_under v literals ≡ all_under s heads → OpeningIsMet n d s o (open_terms heads literals o) v }
    ensures equal { (d : List Tm) (s v : Sub) (heads literals : Tms) (o : Opening) → length (items heads) ≡ length (items literals)
        → OpeningSays d s (open_terms heads literals o) v → all_under v literals ≡ all_under s heads }
{}

/// The cover of a clause: each variable that its head did not bind gets a universal one. It fits what opened before,
/// and what the clause's variables stand for is known. Where the literal's terms have the values of the head's, and
/// the clause's variables values in the domain, values that agree on what was known meet the cover and give the
/// clause's variables their values.
pub fn covers_are_met()
    ensures fits { (n top vars next : ℕ) (o : Opening) → OpeningFits n o → AreUnknown n o.opened next top
        → (next + vars) ≤ top → CoverGrows n top (cover_from next o) (covering vars next o) }
    ensures known { (n top vars next : ℕ) (o : Opening) → OpeningFits n o → AreUnknown n o.opened next top
        → (next + vars) ≤ top → (x : ℕ) → x < vars
        → IsTrue (is_known (knows n (covering vars next o).opened) (value_of (covering vars next o).bound x)) }
    ensures met { (n top : ℕ) (d : List Tm) (s : Sub) (vars next : ℕ) (heads literals : Tms) (o : Opening) (v : Sub)
        → OpeningFits n o → OpeningSays d s o v → IsTrue (are_known (knows n o.opened) literals)
        → all_under v literals ≡ all_under s heads → top ≤ o.hidden → AreUnknown n o.opened next top
        → (next + vars) ≤ top → ((x : ℕ) → x < vars → IsTrue (list_any (same_tm (s x)) d))
        → CoverIsMet n d s vars o.opened (covering vars next (open_terms heads literals o)) v }
{}

/// The lines of a certificate are numbered from 1 without a gap, as many as are counted; each is found by its number.
/// From a line on stand its own lines, as many as are counted of what stands there.
pub fn lines_are_numbered()
    ensures counts { (p : ThisProgram) (c : Certificate) → Counts 1 (lines p c) }
    ensures many { (p : ThisProgram) (c : Certificate) → length (lines p c) ≡ all_lines c }
    ensures found { (p : ThisProgram) (c : Certificate) (l : Line) → Contains (lines p c) l → numbered (lines p c) l.at ≡ Some l }
    ensures number { (p : ThisProgram) (c : Certificate) (i : ℕ) (l : Line) → numbered (lines p c) i ≡ Some l → l.at ≡ i }
    ensures below { (s : Setting) (l : Line) → Counts l.at (walk_of s l) }
    ensures many_below { (s : Setting) (l : Line) → length (walk_of s l) ≡ lines_of_part l.part }
{}

/// The lines of a line of the certificate are lines of it, and likewise of a line below another. An instance of a
/// line is one of each line above it.
pub fn lines_lie_within()
    ensures whole { (p : ThisProgram) (c : Certificate) (x y : Line) → Contains (lines p c) x
        → Contains (walk_of (setting p.clauses c) x) y → Contains (lines p c) y }
    ensures within { (s : Setting) (l x y : Line) → Contains (walk_of s l) x → Contains (walk_of s x) y → Contains (walk_of s l) y }
    ensures instance { (s : Setting) (n : ℕ) (d : List Tm) (free v : Sub) (l x : Line) → Contains (walk_of s l) x
        → IsInstance n d free x.here.opened v → IsInstance n d free l.here.opened v }
{}

/// What a certificate says is what its lines say at their instances, where what opened at each line is well and the
/// line's variables are known: its true and its false atoms, and its terms, which a closed domain has.
pub fn lines_say_it()
    ensures said { (p : ThisProgram) (c : Certificate) → IsTrue (are_lines_known p c) → (free : Sub) (d : List Tm) (s : Said)
        → Contains (said p c free d) s ↔ SaysAt p c free d s }
    ensures atoms { (p : ThisProgram) (c : Certificate) → IsTrue (are_lines_known p c)
        → (free : Sub) (d : List Tm) (positive : Bool) (a : ThisAtom) → Contains (atoms_of positive (said p c free d)) a
        → (s : Said) × SaysAt p c free d s × (s.positive ≡ positive) × (s.atom ≡ a) }
    ensures lines { (p : ThisProgram) (c : Certificate) → IsTrue (are_lines_known p c)
        → (free : Sub) (d : List Tm) (positive : Bool) (s : Said) → SaysAt p c free d s → s.positive ≡ positive
        → Contains (atoms_of positive (said p c free d)) s.atom }
    ensures closed { (p : ThisProgram) (c : Certificate) → IsTrue (are_lines_known p c) → (free : Sub) (d : List Tm)
        → IsTrue (is_closed_over p c free d) ↔ ((s : Said) → SaysAt p c free d s → IsTrue (are_in d s.terms)) }
{}

/// Where the variables that stand on each line are known there, what opened at each line is well, no part or universal
/// variable that is still to come is known, and what a body's variables stand for is known.
pub fn lines_fit()
    ensures fit { (p : ThisProgram) (c : Certificate) → IsTrue (are_lines_scoped p c) → (l : Line) → Contains (lines p c) l
        → PartFits (setting p.clauses c) l.here l.next l.part }
    ensures known { (p : ThisProgram) (c : Certificate) → IsTrue (are_lines_scoped p c) → IsTrue (are_lines_known p c) }
{}

/// At each line the literals above and the cases around are lines of the certificate at which no more had opened; what
/// opened did so at the innermost case that is not plain; and what a variable is replaced by has its value.
pub fn lines_are_surrounded()
    ensures { (p : ThisProgram) (c : Certificate) (l : Line) → Contains (lines p c) l
        → PartSurrounded (lines p c) l.here l.part }
{}

/// Right below a line stand the lines that have to be there: a node for each item of a rule, each rule that is named
/// under a negated literal, the case of a rule and of a check, both sides of a split, the node that shows a leaf's item
/// false, the node that shows the head; and for the query a node for each of its items.
pub fn lines_have_lines_below()
    ensures below { (s : Setting) (l : Line) → HasBelow s l }
    ensures query { (p : ThisProgram) (c : Certificate) → HasQueryItems p c }
{}

/// The negation of a constraint that excludes no shape with parts holds exactly where the constraint does not. So at
/// each instance of a case one side of each split has an instance that agrees with it on what is known, down to a case
/// that is not split.
pub fn cases_are_exhaustive()
    ensures negation { (v : Sub) (k : ℕ) (c : ThisCon) → IsTrue (excludes_no_parts c) → holds v (negated k c) ≡ not (holds v c) }
    ensures case { (p : ThisProgram) (c : Certificate) → IsTrue (are_lines_scoped p c)
        → (d : List Tm) (b : Branch) (l : Line) (body : Body) (v : Sub) → Contains (lines p c) l
        → l.part ≡ of_case body b → AllMet d v l.here.opened → Ends (setting p.clauses c) d l body v }
{}

/// Of the program `p :- not r(X). r(X) :- s(f(X)). s(Y).` the answer to `?- not p.` lists f(X) for each value of X.
/// So no domain that has a constant is closed for it; and it is not flat.
pub fn some_domains_are_never_closed()
    ensures not_flat { IsFalse (is_flat certificate) }
    ensures never { (d : List Tm) → IsTrue (list_any (same_tm a) d) → IsTrue (is_closed_over program certificate free d) → ⊥ }
{}
