//! The values that an answer shows, and what the given constraints say of their variables.
ghost use Rattle.std.specs.Prelude.{◌≡◌, ◌++◌, true, OnOk, Some, if◌then◌else◌, codes, flat_map};
ghost use Rattle.scasp_project.specs.Projection.{projection};
ghost use Rattle.scasp_project.specs.declared.projecting.Projected.TheVariants as projected;
ghost use Rattle.scasp_print_remarks.specs.Remarks as spec;
ghost use Rattle.scasp_syntax.specs.Tm.{items, var};

use crate::values::put_values;
use scasp_cert::Cert;
use scasp_fixed::tell;
use scasp_name::{Memory, NameId, Names};
use scasp_print::put_con;
use scasp_print_words::{put, put_separator};
use scasp_project::{Projected, project};
use scasp_rows::LinErr;
use scasp_shorten::shortest;
use scasp_syntax::{Con, ConLists, Cons, VarList};

/// Puts constraints with commas between them.
fn put_cons(out: &mut Vec<u8>, names: &Names, constraints: &[Con]) -> Result<(), Memory>
    ensures { OnOk result (out.new.items ≡ out.old.items ++ spec.cons_text names.now true constraints.now) }
{
    let mut is_first = true;
    for constraint in constraints {
        put_separator(out, is_first, ", ")?;
        put_con(out, names, constraint)?;
        is_first = false;
    }
    Ok(())
}

/// Puts the line of an alternative.
fn put_alternative(
    out: &mut Vec<u8>,
    names: &Names,
    is_first: bool,
    constraints: &[Con],
) -> Result<(), Memory>
    ensures { OnOk result (out.new.items ≡ out.old.items ++ ((if is_first then codes "% where " else codes "% or ") ++ spec.cons_text names.now true constraints.now ++ codes "\n")) }
{
    put(out, if is_first { "% where " } else { "% or " })?;
    put_cons(out, names, constraints)?;
    put(out, "\n")
}

/// Puts a line for each alternative.
fn put_alternative_lines(out: &mut Vec<u8>, names: &Names, lists: &[Cons]) -> Result<(), Memory>
    ensures { OnOk result (out.new.items ≡ out.old.items ++ spec.alternative_lines names.now true lists.now) }
{
    let mut is_first = true;
    for constraints in lists {
        put_alternative(out, names, is_first, constraints.as_slice())?;
        is_first = false;
    }
    Ok(())
}

/// Whether some alternative has no constraints.
fn has_empty(lists: &[Cons]) -> bool
    ensures { result ≡ spec.has_empty lists.now }
{
    for constraints in lists {
        if constraints.len() == 0 {
            return true;
        }
    }
    false
}

/// Puts what the alternatives say.
fn put_alternatives(out: &mut Vec<u8>, names: &Names, lists: &ConLists) -> Result<(), Memory>
    ensures { OnOk result (out.new.items ≡ out.old.items ++ spec.alternatives_text names.now lists.now) }
{
    if lists.len() == 0 {
        put(out, "% where false\n")
    } else if has_empty(lists.as_slice()) {
        Ok(())
    } else {
        put_alternative_lines(out, names, lists.as_slice())
    }
}

/// Puts the values as they stand.
fn put_plain(
    out: &mut Vec<u8>,
    names: &Names,
    variables: &[Option<NameId>],
    cert: &Cert,
) -> Result<(), Memory>
    ensures { OnOk result (out.new.items ≡ out.old.items ++ flat_map (spec.value_line names.now var) (spec.values_of variables.now cert.now.terms)) }
{
    put_values(out, names, &[], variables, cert.terms.as_slice())
}

/// Puts the values with the numbers that the equations of the alternatives fix, and what the alternatives say.
fn put_told(
    out: &mut Vec<u8>,
    names: &Names,
    variables: &[Option<NameId>],
    cert: &Cert,
    lists: ConLists,
) -> Result<(), Memory>
    ensures { OnOk result (out.new.items ≡ out.old.items ++ spec.told_text names.now (spec.values_of variables.now cert.now.terms) (items cert.now.sample) (Some (projected.Alternatives lists))) }
{
    let left = tell(lists, &cert.sample)?;
    put_values(
        out,
        names,
        left.values.as_slice(),
        variables,
        cert.terms.as_slice(),
    )?;
    put_alternatives(out, names, &shortest(&left.lists)?)
}

/// Puts the values of the variables, and what the given constraints say of the variables that the values speak of.
pub(crate) fn put_with_where(
    out: &mut Vec<u8>,
    names: &Names,
    variables: &[Option<NameId>],
    cert: &Cert,
    spoken_of: &VarList,
) -> Result<(), Memory>
    ensures { OnOk result (out.new.items ≡ out.old.items ++ spec.told_text names.now (spec.values_of variables.now cert.now.terms) (items cert.now.sample) (projection cert.now.given spoken_of.now)) }
{
    match project(&cert.given, spoken_of) {
        Ok(Projected::Alternatives(lists)) => put_told(out, names, variables, cert, lists),
        Ok(Projected::TooMany) => {
            put_plain(out, names, variables, cert)?;
            put(out, "% where more\n")
        }
        Err(LinErr::Overflow) => {
            put_plain(out, names, variables, cert)?;
            put(out, "% where overflow\n")
        }
        Err(LinErr::Memory) => Err(Memory),
    }
}
