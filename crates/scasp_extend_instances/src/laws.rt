//! What holds of the instances of what opened.
ghost use Rattle.std.specs.Prelude.{◌≡◌, false, List};
ghost use Rattle.scasp_extend_instances.specs.Within.{overflows, ways_within};
ghost use Rattle.scasp_lines.specs.Opened.{Opened};
ghost use Rattle.scasp_lines.specs.Ways.{ways};
ghost use Rattle.scasp_syntax.specs.Tm.{Tm};
ghost use Rattle.scasp_syntax.specs.Values.{Sub};

/// Where no row overflows, the instances within the range of the numbers are all instances.
pub fn instances_within_range_are_all()
    ensures { (d : List Tm) (os : List Opened) (v : Sub) → overflows d os v ≡ false → ways_within d os v ≡ ways d os v }
{}
