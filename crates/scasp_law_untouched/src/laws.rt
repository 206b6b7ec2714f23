//! What holds of certificates that an edit does not touch.
ghost use Rattle.std.specs.Prelude.{◌≡◌, false};
ghost use Rattle.scasp_cert.specs.Certificate.{Certificate};
ghost use Rattle.scasp_checker_rules.specs.Faults.{faults};
ghost use Rattle.scasp_syntax.specs.declared.program.Program.{Program as ThisProgram};
ghost use Rattle.scasp_touched.specs.Touched.{touched};

/// Where the step from one program to another does not touch a certificate, the same is wrong with it under both.
pub fn untouched_keeps_its_faults()
    ensures { (p q : ThisProgram) (c : Certificate) → touched p q c ≡ false → faults p c ≡ faults q c }
{}
