//! What holds of the values that are told.
ghost use Rattle.std.specs.Prelude.{◌↔◌, List};
ghost use Rattle.scasp_fixed.specs.Fixed.{telling};
ghost use Rattle.scasp_hint.specs.AskedRows.{RowsNormal};
ghost use Rattle.scasp_list.specs.Each.{Each};
ghost use Rattle.scasp_project.specs.Meaning.{MeetsOne};
ghost use Rattle.scasp_syntax.specs.Tm.{Tm};
ghost use Rattle.scasp_syntax.specs.Values.{Valuation};
ghost use Rattle.scasp_syntax.specs.declared.con.Con.{Con as ThisCon};
ghost use Rattle.scasp_unify.specs.Solving.{sub_of};
ghost use Rattle.scasp_unify.specs.Unification.{Absorbs, then_by};

/// A valuation meets one of the lists exactly where it gives the variables the values that are told, and meets one of
/// the lists that are told. And each valuation that meets one of the lists that are told meets one of the lists once it
/// gives the variables these values.
pub fn values_are_told()
    ensures same { (lists : List (List ThisCon)) (sample : List Tm) (v : Valuation) → Each RowsNormal lists → MeetsOne v.of lists ↔ (Absorbs v.of (sub_of (telling lists sample).values) × MeetsOne v.of (telling lists sample).lists) }
    ensures filled { (lists : List (List ThisCon)) (sample : List Tm) (v : Valuation) → Each RowsNormal lists → MeetsOne v.of (telling lists sample).lists → MeetsOne (then_by (sub_of (telling lists sample).values) v.of) lists }
{}
