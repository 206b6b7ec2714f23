//! What holds of the levelled model above what an accepted certificate says.
ghost use Rattle.std.specs.Prelude.{Bool, IsTrue, List};
ghost use Rattle.scasp_cert.specs.Certificate.{Certificate};
ghost use Rattle.scasp_checker_rules.specs.Accepted.{AcceptsWhere};
ghost use Rattle.scasp_graph.specs.Map.{MapHolds};
ghost use Rattle.scasp_law_extension.specs.Above.{IsModelAbove, model_above};
ghost use Rattle.scasp_law_promise.specs.Good.{Over};
ghost use Rattle.scasp_law_promise.specs.OwnRows.{has_normal_rows};
ghost use Rattle.scasp_model.specs.Atoms.{SameAtoms};
ghost use Rattle.scasp_sound.specs.MapLevels.{covered};
ghost use Rattle.scasp_syntax.specs.Tm.{Tm};
ghost use Rattle.scasp_syntax.specs.Values.{Sub};
ghost use Rattle.scasp_syntax.specs.declared.atom.Atom.{Atom as ThisAtom};
ghost use Rattle.scasp_syntax.specs.declared.program.Program.{Program as ThisProgram};

/// Where a program keeps the map of an accepted certificate but for the clauses that are checked, what the certificate says is
/// true, with the levelled model of what it leaves, is a stable model of the program over each closed domain, which has nothing
/// that the certificate says is false.
pub fn levelled_model_extends()
    ensures { (b : Bool) (p : ThisProgram) (c : Certificate) → IsTrue (has_normal_rows c) → AcceptsWhere b p c → MapHolds p (covered c) c.map → Over (λ v d. IsModelAbove p c v d (model_above p c v d)) p c }
{}

/// Which list of the same atoms is taken makes no difference.
pub fn same_atoms_extend()
    ensures { (p : ThisProgram) (c : Certificate) (v : Sub) (d : List Tm) (atoms others : List ThisAtom) → SameAtoms atoms others → IsModelAbove p c v d others → IsModelAbove p c v d atoms }
{}
