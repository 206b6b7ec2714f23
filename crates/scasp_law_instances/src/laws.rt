//! What there is for each accepted certificate.
ghost use Rattle.std.specs.Prelude.{Bool, IsTrue, List};
ghost use Rattle.scasp_cert.specs.Certificate.{Certificate};
ghost use Rattle.scasp_cert.specs.Flat.{is_flat};
ghost use Rattle.scasp_checker_rules.specs.Accepted.{AcceptsWhere};
ghost use Rattle.scasp_graph.specs.Map.{MapHolds};
ghost use Rattle.scasp_law_instances.specs.Instances.{HasInstance, HasModelAbove};
ghost use Rattle.scasp_law_promise.specs.OwnRows.{has_normal_rows};
ghost use Rattle.scasp_model.specs.Grounding.{is_domain};
ghost use Rattle.scasp_sound.specs.MapLevels.{covered};
ghost use Rattle.scasp_syntax.specs.Tm.{Tm};
ghost use Rattle.scasp_syntax.specs.declared.program.Program.{Program as ThisProgram};

/// The sample of an accepted certificate is an instance of it: a valuation with the sample's terms meets what is given. So
/// what is promised for each such valuation is promised for one at least.
pub fn accepted_has_an_instance()
    ensures { (b : Bool) (p : ThisProgram) (c : Certificate) → AcceptsWhere b p c → HasInstance c }
{}

/// Where an accepted certificate is flat and the program keeps its map but for the clauses that are checked, there is a
/// closed domain above each domain, and a stable model of the program over it, for which all that is promised holds.
pub fn promises_have_models()
    ensures { (b : Bool) (p : ThisProgram) (c : Certificate) → IsTrue (has_normal_rows c) → AcceptsWhere b p c → MapHolds p (covered c) c.map → IsTrue (is_flat c) → (given : List Tm) → IsTrue (is_domain given) → HasModelAbove p c given }
{}
